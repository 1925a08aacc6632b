// The codes by which a head tells its status, by how many data bytes go with them.
ghost use Rattle.std.specs.Prelude.{◌≡◌};
ghost use Rattle.codes.specs.Codes.{Decodes, bare_code, detailed_code, complaint_code, status_code, code_data_count, data_count, is_bare, is_detailed, is_complaint, is_status};

use crate::unknown::UnknownCode;

// A status that has no data.
#[derive(Clone, Copy, Debug, PartialEq, Eq)]
pub enum BareCode {
    Idling = 0x11,
    Accepting = 0x12,
    Stacking = 0x14,
    VendValid = 0x15,
    Stacked = 0x16,
    Returning = 0x18,
    Disabled = 0x1a,
    Initializing = 0x1b,
    PowerUp = 0x40,
    PowerUpWithBillInAcceptor = 0x41,
    PowerUpWithBillInStacker = 0x42,
    StackerFull = 0x43,
    StackerOpen = 0x44,
    JamInAcceptor = 0x45,
    JamInStacker = 0x46,
    Pause = 0x47,
    Cheated = 0x48,
}

// A status that has one data byte: the bill in escrow, the reason of a rejection, the failure.
#[derive(Clone, Copy, Debug, PartialEq, Eq)]
pub enum DetailedCode {
    Escrow = 0x13,
    Rejecting = 0x17,
    Failure = 0x49,
}

// What a head answers in place of a status when it cannot take what was sent.
#[derive(Clone, Copy, Debug, PartialEq, Eq)]
pub enum ComplaintCode {
    CommunicationError = 0x4a,
    InvalidCommand = 0x4b,
}

#[derive(Clone, Copy, Debug, PartialEq, Eq)]
pub enum StatusCode {
    Bare(BareCode),
    Detailed(DetailedCode),
    Complaint(ComplaintCode),
}

impl From<BareCode> for u8 {
    ghost from_gives = { λ code byte. byte ≡ bare_code code };

    fn from(code: BareCode) -> u8 {
        code as u8
    }
}

impl TryFrom<u8> for BareCode {
    type Error = UnknownCode;

    ghost try_from_gives = { Decodes bare_code is_bare };

    fn try_from(byte: u8) -> Result<BareCode, UnknownCode> {
        match byte {
            0x11 => Ok(BareCode::Idling),
            0x12 => Ok(BareCode::Accepting),
            0x14 => Ok(BareCode::Stacking),
            0x15 => Ok(BareCode::VendValid),
            0x16 => Ok(BareCode::Stacked),
            0x18 => Ok(BareCode::Returning),
            0x1a => Ok(BareCode::Disabled),
            0x1b => Ok(BareCode::Initializing),
            0x40 => Ok(BareCode::PowerUp),
            0x41 => Ok(BareCode::PowerUpWithBillInAcceptor),
            0x42 => Ok(BareCode::PowerUpWithBillInStacker),
            0x43 => Ok(BareCode::StackerFull),
            0x44 => Ok(BareCode::StackerOpen),
            0x45 => Ok(BareCode::JamInAcceptor),
            0x46 => Ok(BareCode::JamInStacker),
            0x47 => Ok(BareCode::Pause),
            0x48 => Ok(BareCode::Cheated),
            _ => Err(UnknownCode(byte)),
        }
    }
}

impl From<DetailedCode> for u8 {
    ghost from_gives = { λ code byte. byte ≡ detailed_code code };

    fn from(code: DetailedCode) -> u8 {
        code as u8
    }
}

impl TryFrom<u8> for DetailedCode {
    type Error = UnknownCode;

    ghost try_from_gives = { Decodes detailed_code is_detailed };

    fn try_from(byte: u8) -> Result<DetailedCode, UnknownCode> {
        match byte {
            0x13 => Ok(DetailedCode::Escrow),
            0x17 => Ok(DetailedCode::Rejecting),
            0x49 => Ok(DetailedCode::Failure),
            _ => Err(UnknownCode(byte)),
        }
    }
}

impl From<ComplaintCode> for u8 {
    ghost from_gives = { λ code byte. byte ≡ complaint_code code };

    fn from(code: ComplaintCode) -> u8 {
        code as u8
    }
}

impl TryFrom<u8> for ComplaintCode {
    type Error = UnknownCode;

    ghost try_from_gives = { Decodes complaint_code is_complaint };

    fn try_from(byte: u8) -> Result<ComplaintCode, UnknownCode> {
        match byte {
            0x4a => Ok(ComplaintCode::CommunicationError),
            0x4b => Ok(ComplaintCode::InvalidCommand),
            _ => Err(UnknownCode(byte)),
        }
    }
}

impl StatusCode {
    // How many data bytes go with the code.
    #[tactic(auto, using(crate::proofs::Known::counted))]
    pub fn data_count(self) -> usize
        ensures by_code { result ≡ code_data_count self }
        ensures by_byte { result ≡ data_count (status_code self) }
    {
        match self {
            StatusCode::Bare(_) | StatusCode::Complaint(_) => 0,
            StatusCode::Detailed(_) => 1,
        }
    }
}

impl From<StatusCode> for u8 {
    ghost from_gives = { λ code byte. byte ≡ status_code code };

    fn from(code: StatusCode) -> u8 {
        match code {
            StatusCode::Bare(code) => code.into(),
            StatusCode::Detailed(code) => code.into(),
            StatusCode::Complaint(code) => code.into(),
        }
    }
}

impl TryFrom<u8> for StatusCode {
    type Error = UnknownCode;

    ghost try_from_gives = { Decodes status_code is_status };

    fn try_from(byte: u8) -> Result<StatusCode, UnknownCode> {
        let bare = BareCode::try_from(byte).map(StatusCode::Bare);
        let detailed = DetailedCode::try_from(byte).map(StatusCode::Detailed);
        let complaint = ComplaintCode::try_from(byte).map(StatusCode::Complaint);
        bare.or(detailed).or(complaint)
    }
}
