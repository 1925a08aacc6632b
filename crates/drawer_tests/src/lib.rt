// Tests of the drawer, its bytes, its check and its audit: each refusal at its edge, each kind of bad field with its
// place, the order of refusals, and piles over a drawer.
#![tactic(auto)]

#[cfg(test)]
mod audits;
#[cfg(test)]
mod checks;
#[cfg(test)]
mod drawers;
#[cfg(test)]
mod images;
#[cfg(test)]
mod piles;
