// One event of a run by the rules.
#![tactic(auto)]

pub mod steps;
