// The layout of the lent memory: 32,768 numbers of 16 bits.
//
//   0 .. 12288      the records: for each its head, which is its count, then its numbers
//   12288 .. 16384  for each token 1 + its record's position, or 0 for none
//   16384 .. 20480  for each token its standing: 0 none of these, 1 deferred, 2 ready (in the queue now), 3 has finished pipe 0
//   20480 .. 24576  the deferred table: `held` tokens in the order entered, then zeros
//   24576 .. 28672  the watches, in step with that table: a number by which each of its tokens is held, then zeros
//   28672 .. 32768  every token that became ready, in order; those at first .. end are queued
//
// The first three parts are the facts of the tokens; what is asked of one token is asked of them alone.

// Where the parts begin, after the records. Opening writes the positions too.
pub const POSITIONS: usize = 12288;

pub const STANDINGS: usize = 16384;

pub const DEFERRED: usize = 20480;

pub const WATCHES: usize = 24576;

pub const READY: usize = 28672;

// How many numbers are lent.
pub const LENT: usize = 32768;

// The most tokens, and so the room of each part that is by token.
pub const TOKENS: u16 = 4096;

// The most numbers in a record.
pub const RECORD_NUMBERS: usize = 16;

// The standings: numbers and no enum, as the lent memory is of 16-bit numbers (docs/LAYOUT.md).
pub const NO_MARK: u16 = 0;

pub const DEFERRED_MARK: u16 = 1;

pub const READY_MARK: u16 = 2;

pub const FINISHED_MARK: u16 = 3;
