// The limits that document 01 prints and all editions share, in its words, and what follows from them.
#![tactic(auto)]

pub mod actions; // actions.rt: the kinds of a table's actions
pub mod answers; // answers.rt: how an event is answered
pub mod events; // events.rt: the kinds of events
pub mod nodes; // nodes.rt: the kinds of a schedule's nodes
pub mod refusals; // refusals.rt: why a call refuses
pub mod targets; // targets.rt: where an entry of a table leads to, beside the locations

// "each with a length byte first (1..200)": of kind and payload
pub const NODE_BYTES: usize = 200;

// "the whole file's length (2 bytes)"
pub const FILE_BYTES: usize = 65535;

// "Variables: count 1..32"
pub const VARIABLES: usize = 32;

// "Equations: count 0..16"; so there are at most as many CASEs, each of them a selector
pub const EQUATIONS: usize = 16;

// of a CASE: "mode count 1..8"
pub const MODES: usize = 8;

// the places of all modes, a row for each selector
pub const MODE_PLACES: usize = EQUATIONS * MODES;

// "There are over 1,024 locations."
pub const LOCATIONS: usize = 1024;

// of a truth or number: "Depth is at most 16"
pub const DEPTH: usize = 16;

// the longest start: "4 bytes each, then modes"
pub const START_BYTES: usize = 4 * VARIABLES + EQUATIONS;
