// The status that a head tells, read from a message's command byte and data.
#![tactic(auto)]

ghost use Rattle.std.specs.Prelude.{◌≡◌};
ghost use Rattle.std.specs.Option.{option_to_list};
ghost use Rattle.status.specs.Statuses.{status_answer, status_byte, status_data, status_fault_number, told};

use codes::{BareCode, DetailedCode, StatusCode};
use number::Numbered;
use thiserror::Error;

// A status with the data that its code has: no value has a code, or a number of data bytes, outside the table.
#[derive(Clone, Copy, Debug, PartialEq, Eq)]
pub enum Status {
    Bare(BareCode),
    Detailed(DetailedCode, u8),
}

impl Status {
    // The code, for a match over ranges of codes.
    pub fn code(self) -> u8
        ensures { result ≡ status_byte self }
    {
        match self {
            Status::Bare(code) => code.into(),
            Status::Detailed(code, _) => code.into(),
        }
    }

    // The data byte of a status that has one.
    pub fn detail(self) -> Option<u8>
        ensures { option_to_list result ≡ status_data self }
    {
        match self {
            Status::Bare(_) => None,
            Status::Detailed(_, byte) => Some(byte),
        }
    }
}

// Why a message is no status. The numbers are part of the interface.
#[derive(Clone, Copy, Debug, PartialEq, Eq, Error)]
pub enum StatusFault {
    #[error("{}: the code is no status", self.number())]
    UnknownCode = 8,
    #[error("{}: the status has another number of data bytes", self.number())]
    WrongDataCount = 9,
    #[error("{}: the head answers that it could not take what was sent", self.number())]
    Complaint = 10,
}

impl Numbered for StatusFault {
    ghost number_of = { status_fault_number };

    fn number(&self) -> u8 {
        *self as u8
    }
}

#[tactic(auto, using(crate::proofs::Counted::bare, crate::proofs::Counted::detailed))]
pub fn read(command: u8, data: &[u8]) -> Result<Status, StatusFault>
    ensures { told result ≡ status_answer command «data».now }
{
    let code = StatusCode::try_from(command).map_err(|_| StatusFault::UnknownCode)?;
    match (code, data) {
        (StatusCode::Bare(code), []) => Ok(Status::Bare(code)),
        (StatusCode::Detailed(code), [detail]) => Ok(Status::Detailed(code, *detail)),
        (StatusCode::Complaint(_), []) => Err(StatusFault::Complaint),
        _ => Err(StatusFault::WrongDataCount),
    }
}
