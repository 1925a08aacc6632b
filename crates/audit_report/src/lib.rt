// What the program `audit` reads and prints.
#![tactic(auto)]

pub mod count;
pub mod line;
pub mod report;
