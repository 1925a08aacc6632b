// Numbers and words read from texts, at their edges. The expected values were written by hand.
#![tactic(auto)]

#[cfg(test)]
mod reads;
