// How the hub reacts to a head's status: which ledger calls it makes, and which second frame it sends.
#![tactic(auto)]

mod calls;
mod fault;
mod reaction;
mod second;
mod setup;
mod table;

pub use calls::{Calls, perform, perform_some};
pub use fault::HeadFault;
pub use reaction::{Reaction, Reply};
pub use second::SecondFrame;
pub use setup::{Setup, only_the_exact_echo_confirms};
pub use table::react;
