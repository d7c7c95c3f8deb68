// Practice events from a seed: document 02, item 1.
#![tactic(auto)]

pub mod call; // call.rt: the call
mod events; // events.rt: the bytes of the events
mod generator; // generator.rt: the seed from draw to draw
