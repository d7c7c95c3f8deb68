// Running a table.
#![tactic(auto)]

pub mod call;
mod runs;
