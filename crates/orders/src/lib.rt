// Orders of the heads: who could be served in the coming slots, and that counting decides whether there is an order.
#![tactic(auto)]

pub mod law;
pub mod limit;
pub mod places;
pub mod turn;
