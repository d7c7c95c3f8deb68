// One event of the run of a table.
#![tactic(auto)]

pub mod entries;
pub mod steps;
