// The vocabulary of document 01: its numbers, each of its own kind, and what a choice answers: an event or a refusal.
#![tactic(auto)]

mod event;
mod pipe_kind;
mod refusal;

pub use event::{Event, EventRecord, Step, Stop};
pub use pipe_kind::PipeKind;
pub use refusal::Refusal;

// A token's number.
#[derive(Clone, Copy, PartialEq, Eq)]
pub struct Token(pub u16);

// A token's place in the order, from 0.
#[derive(Clone, Copy, PartialEq, Eq)]
pub struct Place(pub u16);

// A line's number.
#[derive(Clone, Copy, PartialEq, Eq)]
pub struct Line(pub u16);

// A pipe's number.
#[derive(Clone, Copy, PartialEq, Eq)]
pub struct Pipe(pub u16);

// A worker's number.
#[derive(Clone, Copy, PartialEq, Eq)]
pub struct Worker(pub u16);

// What a line is doing: at which pipe it waits or runs, with which token and place, and by which worker. (A line that does not run
// has worker 0.)
#[derive(Clone, Copy, PartialEq, Eq)]
pub struct Slot {
    pub pipe: Pipe,
    pub running: bool,
    pub token: Token,
    pub place: Place,
    pub worker: Worker,
}

// The slots of all lines, a row for each kind of number: so a test of all of them takes a few instructions a row.
#[derive(Clone, Copy, PartialEq, Eq)]
pub struct Slots {
    pub at: [Pipe; 32],
    pub running: [bool; 32],
    pub token: [Token; 32],
    pub place: [Place; 32],
    pub worker: [Worker; 32],
}
