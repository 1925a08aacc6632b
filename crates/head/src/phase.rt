// The phases of a head, each with the code of its status.
ghost use Rattle.std.specs.Prelude.{◌≡◌};
ghost use Rattle.std.specs.Option.{option_to_list};
ghost use Rattle.head.specs.Phases.{ReadAsStatus, code as status_code, error_byte, status};

use number::Number;

// The codes of a head that is out of order.
#[derive(Clone, Copy, Debug, PartialEq, Eq)]
pub enum ErrorCode {
    StackerFull = 0x43,
    StackerOpen = 0x44,
    JamInAcceptor = 0x45,
    JamInStacker = 0x46,
    Pause = 0x47,
    Cheated = 0x48,
    Failure = 0x49,
}

impl From<ErrorCode> for u8 {
    ghost from_gives = { λ code byte. byte ≡ error_byte code };

    fn from(code: ErrorCode) -> u8 {
        code as u8
    }
}

// Each phase with the code of its status, and with the byte that it holds: the code of its bill, the reason of
// its rejection or the failure. `Error` has the codes of its own type.
#[derive(Clone, Copy, Debug, PartialEq, Eq)]
pub enum Phase {
    Idle(Number<0x11>),
    Accepting(Number<0x12>, u8),
    Escrow(Number<0x13>, u8),
    Stacking(Number<0x14>, u8),
    Vend(Number<0x15>, u8),
    Stacked(Number<0x16>, u8),
    Rejecting(Number<0x17>, u8),
    Returning(Number<0x18>),
    Disabled(Number<0x1a>),
    Init(Number<0x1b>),
    Storing(Number<0x1b>, u8),
    Up40(Number<0x40>),
    Up41(Number<0x41>),
    Up42(Number<0x42>, u8),
    Error(ErrorCode, u8),
}

impl Phase {
    // The code of the status that a head in this phase answers.
    pub fn status_code(self) -> u8
        ensures value { result ≡ status_code self }
        ensures known { ReadAsStatus self }
    {
        // Each code is of a type of its own, so no pattern holds two of them.
        match self {
            Phase::Idle(code) => code.value(),
            Phase::Accepting(code, _) => code.value(),
            Phase::Escrow(code, _) => code.value(),
            Phase::Stacking(code, _) => code.value(),
            Phase::Vend(code, _) => code.value(),
            Phase::Stacked(code, _) => code.value(),
            Phase::Rejecting(code, _) => code.value(),
            Phase::Returning(code) => code.value(),
            Phase::Disabled(code) => code.value(),
            Phase::Init(code) => code.value(),
            Phase::Storing(code, _) => code.value(),
            Phase::Up40(code) => code.value(),
            Phase::Up41(code) => code.value(),
            Phase::Up42(code, _) => code.value(),
            Phase::Error(code, _) => code.into(),
        }
    }

    // The data byte of that status, where it has one.
    pub fn status_detail(self) -> Option<u8>
        ensures { option_to_list result ≡ (status self).«data» }
    {
        match self {
            Phase::Escrow(_, bill) => Some(bill),
            Phase::Rejecting(_, reason) => Some(reason),
            Phase::Error(ErrorCode::Failure, failure) => Some(failure),
            _ => None,
        }
    }
}
