// A head's sheet: what the operator says of it, checked once and for all at admission.
#![tactic(auto)]

mod denomination;
mod fault;
mod setting;
mod sheet;

pub use denomination::{Denomination, Pair};
pub use fault::SheetFault;
pub use setting::{SETTINGS, Setting};
pub use sheet::{DENOMINATIONS, Draft, Sheet, values_are_amounts};
