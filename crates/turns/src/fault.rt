// Why the turn table refused a call, each case with its number.
ghost use Rattle.turns.specs.Faults.{admission_number, dismissal_number};

use number::Numbered;
use thiserror::Error;

// Why a head was not admitted; the first cause that applies, from the top.
#[derive(Clone, Copy, Debug, PartialEq, Eq, Error)]
pub enum AdmissionFault {
    #[error("{}: head number over 13", self.number())]
    NumberOver13 = 12,
    #[error("{}: head admitted already", self.number())]
    AdmittedAlready = 13,
    // With this head there would be more heads than some head's limit allows, its own or another's.
    #[error("{}: heads would outnumber a limit", self.number())]
    Outnumbered = 15,
}

impl Numbered for AdmissionFault {
    ghost number_of = { admission_number };

    fn number(&self) -> u8 {
        *self as u8
    }
}

// Why a head was not dismissed; the first cause that applies, from the top. It is an enum of its own, though it shares 12
// with the one above, so that neither call can answer with a cause that is only the other's.
#[derive(Clone, Copy, Debug, PartialEq, Eq, Error)]
pub enum DismissalFault {
    #[error("{}: head number over 13", self.number())]
    NumberOver13 = 12,
    #[error("{}: head not admitted", self.number())]
    NotAdmitted = 16,
}

impl Numbered for DismissalFault {
    ghost number_of = { dismissal_number };

    fn number(&self) -> u8 {
        *self as u8
    }
}
