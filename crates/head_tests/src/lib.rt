// Tests of the head by tables. The expected values were written by hand from the tables of docs/HEAD.md.
#![tactic(auto)]

#[cfg(test)]
mod commands;
#[cfg(test)]
mod moves;
#[cfg(test)]
mod ways;
