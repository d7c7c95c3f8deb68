// "Kinds: 1 SEQUENCE and 2 PARALLEL (child count, at least 1)"
pub const SEQUENCE: u8 = 1;

pub const PARALLEL: u8 = 2;

// "3 WHILE (truth, one child)"
pub const WHILE: u8 = 3;

// "4 IF (truth, two children)"
pub const IF: u8 = 4;

// "5 CONTINUE UNTIL (truth)"
pub const CONTINUE: u8 = 5;

// "6 RESET and 7 REINITIAL (variable, number)"
pub const RESET: u8 = 6;

pub const REINITIAL: u8 = 7;

// "8 SWITCH (selector, mode)"
pub const SWITCH: u8 = 8;

// "9 STOP"
pub const STOP: u8 = 9;
