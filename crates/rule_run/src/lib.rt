// Running a schedule by the rules.
#![tactic(auto)]

pub mod call;
mod runs;
