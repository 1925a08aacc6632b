// A hub at work, and what its refusals tell.
#![tactic(auto)]

#[cfg(test)]
mod refusals;
#[cfg(test)]
mod slots;
