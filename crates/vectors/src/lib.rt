// Examples from outside this repository: proved of the definitions, and run through the code.
#![tactic(auto)]

ghost use Rattle.vectors.specs.WorkedCases.{WorkedCases};

#[cfg(test)]
mod faults;
#[cfg(test)]
mod line;

// The worked cases of the line, proved together by computing them.
pub fn worked_cases_hold()
    ensures { WorkedCases }
{}
