// Turns: which head is polled next, so that no head waits past its limit.
#![tactic(auto)]

pub mod fault;
pub mod law;
pub mod table;
