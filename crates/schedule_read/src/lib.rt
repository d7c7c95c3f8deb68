// Reading a schedule file.
#![tactic(auto)]

pub mod actions;
pub mod assignments;
pub mod call;
pub mod names;
pub mod node;
pub mod operands;
pub mod parts;
mod reader;
