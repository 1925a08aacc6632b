// Why a frame was not read, or not written. The numbers are part of the interface.
ghost use Rattle.frame.specs.Faults.{frame_fault_number, write_fault_number};

use number::Numbered;
use thiserror::Error;

#[derive(Clone, Copy, Debug, PartialEq, Eq, Error)]
pub enum FrameFault {
    #[error("{}: fewer than 5 bytes are left", self.number())]
    TooShort = 1,
    #[error("{}: the byte is not FC", self.number())]
    NoSync = 2,
    #[error("{}: the length byte is under 5", self.number())]
    BadLength = 3,
    #[error("{}: fewer bytes are left than the length byte counts", self.number())]
    Incomplete = 4,
    #[error("{}: the check differs", self.number())]
    CheckDiffers = 5,
}

impl Numbered for FrameFault {
    ghost number_of = { frame_fault_number };

    fn number(&self) -> u8 {
        *self as u8
    }
}

#[derive(Clone, Copy, Debug, PartialEq, Eq, Error)]
pub enum WriteFault {
    #[error("{}: there are more than 250 data bytes", self.number())]
    DataTooLong = 6,
    #[error("{}: the buffer is too short for the frame", self.number())]
    BufferTooShort = 7,
}

impl Numbered for WriteFault {
    ghost number_of = { write_fault_number };

    fn number(&self) -> u8 {
        *self as u8
    }
}
