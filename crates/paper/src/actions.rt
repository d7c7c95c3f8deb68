// "kind (1 test, 2 wait, 3 assign, 4 switch, 5 stop)"
pub const TEST: u8 = 1;

pub const WAIT: u8 = 2;

pub const ASSIGN: u8 = 3;

pub const SWITCH: u8 = 4;

pub const STOP: u8 = 5;
