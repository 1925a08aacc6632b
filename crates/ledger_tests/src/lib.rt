// Tests of the table, the limit and the tally: each refusal at its edge, the order of refusals, and piles.
#![tactic(auto)]

#[cfg(test)]
mod calls;
#[cfg(test)]
mod faults;
#[cfg(test)]
mod limits;
#[cfg(test)]
mod piles;
#[cfg(test)]
mod tables;
#[cfg(test)]
mod tallies;
