// What a first report tells.
ghost use Rattle.std.specs.Prelude.{◌≡◌};
ghost use Rattle.hub.specs.declared.report.ReportFault.TheVariants as reported;

use crate::pass::SecondPass;
use message::{Heard, NothingHeard};
use reaction::HeadFault;
use status::StatusFault;
use thiserror::Error;

// Why the hub did not take what the head said.
#[derive(Clone, Copy, Debug, PartialEq, Eq, Error)]
pub enum ReportFault {
    // The message heard is no status, and counts as nothing heard.
    #[error("no status, {0}")]
    Status(StatusFault),
    // The bill in escrow is returned.
    #[error("the bill is returned: {0}")]
    Head(HeadFault),
}

// By hand, here and below: clauses name the error that `?` makes, and of a derived `From` they would know nothing.
impl From<StatusFault> for ReportFault {
    ghost from_gives = { λ f r. r ≡ reported.Status f };

    fn from(fault: StatusFault) -> ReportFault {
        ReportFault::Status(fault)
    }
}

impl From<HeadFault> for ReportFault {
    ghost from_gives = { λ f r. r ≡ reported.Head f };

    fn from(fault: HeadFault) -> ReportFault {
        ReportFault::Head(fault)
    }
}

pub struct FirstReport<'a> {
    // The message heard, or why none was.
    pub heard: Result<Heard<'a>, NothingHeard>,
    // Whether the hub took what the head said.
    pub taken: Result<(), ReportFault>,
    // The length of the second frame, 0 for none: whoever puts that many bytes of the buffer on the line puts none.
    pub length: usize,
    pub pass: SecondPass,
}
