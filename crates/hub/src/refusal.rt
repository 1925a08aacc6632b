// Why the hub refused a call. The numbers are part of the interface; of several causes the first that applies is given,
// from the top.
ghost use Rattle.std.specs.Prelude.{◌≡◌};
ghost use Rattle.hub.specs.Heads.{admission_refusal, dismissal_refusal, sheet_refusal};
ghost use Rattle.hub.specs.Refusals.{admission_number, dismissal_number, first_number, first_refusal, opening_number, report_number};

use crate::pass::{First, FirstPass, Pass, Report, Second};
use number::{Number, Numbered};
use sheet::SheetFault;
use std::fmt;
use thiserror::Error;
use turns::fault::{AdmissionFault, DismissalFault};

// Each call has a refusal of its own, here and below: it can refuse with nothing else, and the definition shows every number.
// Only a second report and a cut share one enum, `ReportRefusal`, each at its own pass.
#[derive(Clone, Copy, Debug, PartialEq, Eq, Error)]
pub enum AdmissionRefusal {
    #[error("{}: a slot is open", self.number())]
    SlotOpen = 11,
    #[error("{}: head number over 13", self.number())]
    NumberOver13 = 12,
    #[error("{}: head admitted already", self.number())]
    AdmittedAlready = 13,
    #[error("{}: the sheet is wrong", self.number())]
    SheetWrong = 14,
    // With this head there would be more heads than some head's limit allows, its own or another's.
    #[error("{}: heads would outnumber a limit", self.number())]
    Outnumbered = 15,
}

impl Numbered for AdmissionRefusal {
    ghost number_of = { admission_number };

    fn number(&self) -> u8 {
        *self as u8
    }
}

// By hand, here and below: clauses name the error that `?` makes, and of a derived `From` they would know nothing.
impl From<AdmissionFault> for AdmissionRefusal {
    ghost from_gives = { λ f r. r ≡ admission_refusal f };

    fn from(fault: AdmissionFault) -> AdmissionRefusal {
        match fault {
            AdmissionFault::NumberOver13 => AdmissionRefusal::NumberOver13,
            AdmissionFault::AdmittedAlready => AdmissionRefusal::AdmittedAlready,
            AdmissionFault::Outnumbered => AdmissionRefusal::Outnumbered,
        }
    }
}

impl From<SheetFault> for AdmissionRefusal {
    ghost from_gives = { λ f r. r ≡ sheet_refusal f };

    fn from(fault: SheetFault) -> AdmissionRefusal {
        match fault {
            SheetFault::SheetWrong => AdmissionRefusal::SheetWrong,
        }
    }
}

#[derive(Clone, Copy, Debug, PartialEq, Eq, Error)]
pub enum DismissalRefusal {
    #[error("{}: a slot is open", self.number())]
    SlotOpen = 11,
    #[error("{}: head number over 13", self.number())]
    NumberOver13 = 12,
    #[error("{}: head not admitted", self.number())]
    NotAdmitted = 16,
}

impl Numbered for DismissalRefusal {
    ghost number_of = { dismissal_number };

    fn number(&self) -> u8 {
        *self as u8
    }
}

impl From<DismissalFault> for DismissalRefusal {
    ghost from_gives = { λ f r. r ≡ dismissal_refusal f };

    fn from(fault: DismissalFault) -> DismissalRefusal {
        match fault {
            DismissalFault::NumberOver13 => DismissalRefusal::NumberOver13,
            DismissalFault::NotAdmitted => DismissalRefusal::NotAdmitted,
        }
    }
}

#[derive(Clone, Copy, Debug, PartialEq, Eq, Error)]
pub enum OpeningRefusal {
    #[error("{}: a slot is open", self.number())]
    SlotOpen = 11,
    #[error("{}: no head is admitted", self.number())]
    NoHead = 17,
    // The buffer has no room for a poll.
    #[error("{}: the buffer is too short for the poll", self.number())]
    BufferTooShort = 7,
}

impl Numbered for OpeningRefusal {
    ghost number_of = { opening_number };

    fn number(&self) -> u8 {
        *self as u8
    }
}

// A report refused, for whatever it is: a second one, or a first one that the power cut off. With 18 the pass is spent; else
// it comes back.
#[derive(Debug)]
pub enum ReportRefusal<R: Report> {
    // The hub awaits no such report with this pass's count.
    NoSuchSlot(Number<18>),
    // More than 512 bytes were received.
    TooMuchReceived(Number<19>, Pass<R>),
}

pub type SecondRefusal = ReportRefusal<Second>;

pub type CutRefusal = ReportRefusal<First>;

impl<R: Report> Numbered for ReportRefusal<R> {
    ghost number_of = { report_number };

    fn number(&self) -> u8 {
        match self {
            ReportRefusal::NoSuchSlot(number) => number.value(),
            ReportRefusal::TooMuchReceived(number, _) => number.value(),
        }
    }
}

// By hand, here and below: the derive asks for `Drop`, and a refusal that holds a pass must not be let go.
impl<R: Report> fmt::Display for ReportRefusal<R> {
    fn fmt<W: fmt::Write>(&self, f: &mut fmt::Formatter<W>) -> fmt::Result {
        match self {
            ReportRefusal::NoSuchSlot(number) => {
                let report = R::NAME;
                write!(f, "{number}: no {report} report is awaited with this pass")
            }
            ReportRefusal::TooMuchReceived(number, _) => write!(
                f,
                "{number}: more than 512 bytes were received"
            ),
        }
    }
}

// A first report refused. With 18 the pass is spent; else it comes back. Two cases are those of any report, but its own, so
// that this definition shows each number that a first report is refused with, and what comes with it.
#[derive(Debug)]
pub enum FirstRefusal {
    // The hub awaits no first report with this pass's count.
    NoSuchSlot(Number<18>),
    // More than 512 bytes were received.
    TooMuchReceived(Number<19>, FirstPass),
    // The buffer has no room for the longest second frame.
    BufferTooShort(Number<7>, FirstPass),
}

impl Numbered for FirstRefusal {
    ghost number_of = { first_number };

    fn number(&self) -> u8 {
        match self {
            FirstRefusal::NoSuchSlot(number) => number.value(),
            FirstRefusal::TooMuchReceived(number, _) => number.value(),
            FirstRefusal::BufferTooShort(number, _) => number.value(),
        }
    }
}

impl From<ReportRefusal<First>> for FirstRefusal {
    ghost from_gives = { λ refusal r. r ≡ first_refusal refusal };

    fn from(refusal: ReportRefusal<First>) -> FirstRefusal {
        match refusal {
            ReportRefusal::NoSuchSlot(number) => FirstRefusal::NoSuchSlot(number),
            ReportRefusal::TooMuchReceived(number, pass) => FirstRefusal::TooMuchReceived(
                number, pass,
            ),
        }
    }
}

impl fmt::Display for FirstRefusal {
    fn fmt<W: fmt::Write>(&self, f: &mut fmt::Formatter<W>) -> fmt::Result {
        match self {
            FirstRefusal::NoSuchSlot(number) => write!(
                f,
                "{number}: no first report is awaited with this pass"
            ),
            FirstRefusal::TooMuchReceived(number, _) => write!(
                f,
                "{number}: more than 512 bytes were received"
            ),
            FirstRefusal::BufferTooShort(number, _) => write!(
                f,
                "{number}: the buffer is too short for a second frame"
            ),
        }
    }
}
