// "0,0,0 tick; 1,n,0 pick node n; 2,s,k take switch k": the kinds of events, an event's first byte.
pub const TICK: u8 = 0;

pub const PICK: u8 = 1;

pub const SWITCH: u8 = 2;
