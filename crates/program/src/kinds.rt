// The kinds of a table's actions, as an index has them: numbers, since an index is one array of numbers.
pub const TEST: usize = paper::actions::TEST as usize;

pub const WAIT: usize = paper::actions::WAIT as usize;

pub const ASSIGN: usize = paper::actions::ASSIGN as usize;

pub const SWITCH: usize = paper::actions::SWITCH as usize;
