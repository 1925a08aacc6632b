// The hub: it admits heads, opens a slot for one head at a time, and reacts to what the head answers. It owns its ledger.
#![tactic(auto)]

mod accept;
mod heads;
mod hearing;
mod hub;
mod pass;
mod refusal;
mod replies;
mod report;
mod slots;
mod state;

pub use hub::Hub;
pub use pass::{First, FirstPass, Opening, Pass, Report, Second, SecondPass};
pub use refusal::{
    AdmissionRefusal, CutRefusal, DismissalRefusal, FirstRefusal, OpeningRefusal, ReportRefusal,
    SecondRefusal,
};
pub use report::{FirstReport, ReportFault};
pub use state::{Slot, State};
