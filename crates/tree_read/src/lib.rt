// The nodes of a schedule section (9) and their tree (10).
#![tactic(auto)]

pub mod nodes;
pub mod tree;
