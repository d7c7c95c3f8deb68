// The plant's two sections, read by position: conditions 4 to 8, 12 of the switches, and which variables are driven (for 34).
#![tactic(auto)]

pub mod driven; // driven.rt: 8, and which variables are driven
pub mod equations; // equations.rt: 6 and 7
mod places; // places.rt: where the parts of a sound equation section end
pub mod sections; // sections.rt: 4 to 8 in order
pub mod selectors; // selectors.rt: 11, of a selector and a mode
pub mod truths; // truths.rt: 12, of the switches
pub mod variables; // variables.rt: 4 and 5
