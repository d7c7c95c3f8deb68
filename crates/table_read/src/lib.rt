// Reading a table.
#![tactic(auto)]

pub mod actions;
pub mod call;
pub mod locations;
pub mod operands;
pub mod parts;
