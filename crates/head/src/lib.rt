// A test head: an ID-003 acceptor for the hub to be tested against.
#![tactic(auto)]

mod answer;
mod command;
mod fault;
mod head;
mod phase;

pub use fault::{MoveFault, ReceiveFault};
pub use head::Head;
pub use phase::{ErrorCode, Phase};
