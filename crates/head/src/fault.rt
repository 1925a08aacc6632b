// Why a head refuses. The numbers are part of the interface.
//
// Each call has a fault of its own, also where that has one case: so the type of its answer says which refusals
// it can give.
ghost use Rattle.head.specs.Faults.{move_fault_number, receive_fault_number};

use number::Numbered;
use thiserror::Error;

#[derive(Clone, Copy, Debug, PartialEq, Eq, Error)]
pub enum MoveFault {
    #[error("{}: the head does not move there from its phase", self.number())]
    NotListed = 20,
}

impl Numbered for MoveFault {
    ghost number_of = { move_fault_number };

    fn number(&self) -> u8 {
        *self as u8
    }
}

#[derive(Clone, Copy, Debug, PartialEq, Eq, Error)]
pub enum ReceiveFault {
    #[error("{}: the buffer is too short for a head's answer", self.number())]
    BufferTooShort = 7,
}

impl Numbered for ReceiveFault {
    ghost number_of = { receive_fault_number };

    fn number(&self) -> u8 {
        *self as u8
    }
}
