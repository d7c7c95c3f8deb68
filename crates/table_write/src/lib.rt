// A table's bytes, written into a lent buffer.
#![tactic(auto)]

pub mod actions; // actions.rt: the rows of the action section
pub mod table; // table.rt: the sections
