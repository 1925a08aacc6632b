// Messages: the one heard in received bytes, and its kind by its command byte.
#![tactic(auto)]

mod heard;
mod kind;

pub use heard::{Heard, NothingHeard, hear};
pub use kind::Message;
