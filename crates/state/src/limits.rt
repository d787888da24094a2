// How far a run's numbers go.
pub const MOST_PIPES: u16 = 16;

pub const MOST_LINES: u16 = 32;

pub const MOST_TOKENS: u16 = 4096;

pub const MOST_WORKERS: u16 = 32;

// The lengths of the state's arrays: a flag for each pipe, a slot for each line, and a counter for each line and pipe.
pub const FLAGS: usize = 16;

pub const SLOTS: usize = 32;

pub const COUNTERS: usize = 512;

// The counters of a line stand together, one for each pipe.
pub const COUNTERS_OF_LINE: usize = 16;
