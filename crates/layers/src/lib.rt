// Layers over any ledger, held by value: a limit on a head's promises, and a tally of its settled bills. A layer
// over a ledger is a ledger again, so layers pile up in any order.
//
// Each layer hands on by itself what it does not change, which is two questions in both: a trait for what layers have
// in common would have to say of every call what a layer adds to it.
#![tactic(auto)]

mod depth;
pub mod limit;
pub mod tally;
