// "FFFE is finished, FFFD halted, FFFF none."
pub const FINISHED: usize = 0xFFFE;

pub const HALTED: usize = 0xFFFD;

pub const NONE: usize = 0xFFFF;
