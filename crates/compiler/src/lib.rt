// The compiler: the table of a schedule, and how large it is.
#![tactic(auto)]

pub mod call;
pub mod size;
