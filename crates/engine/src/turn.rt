// A choice is worked out on the parts of a state and made then, so that a state is copied as seldom as can be.
ghost use Rattle.std.specs.Prelude.{◌≡◌};
ghost use Rattle.engine.specs.Moves.{step_of};

use tables::Tables;
use vocabulary::{Event, Line, Slot, Step, Worker};

// What a choice names: a worker and a line.
#[derive(Clone, Copy)]
pub struct Choice {
    pub worker: Worker,
    pub line: Line,
}

// A counter's place among all counters, and its value.
#[derive(Clone, Copy)]
pub struct Cell {
    pub at: usize,
    pub value: u8,
}

// What an accepted choice answers, and what it changes: two counters (or one, twice), the line's slot, and the numbers.
#[derive(Clone, Copy)]
pub struct Change {
    pub event: Event,
    pub first: Cell,
    pub second: Cell,
    pub slot: Slot,
    pub placed: u16,
    pub stopped: bool,
    pub tables: Tables,
}

// What the checks of a choice come to where it is not refused: the line starts or finishes the pipe of its slot.
#[derive(Clone, Copy)]
pub enum Move {
    Start(Slot),
    Finish(Slot),
}

// A step by the slot of its line.
pub(crate) fn step_of(line: Line, slot: Slot, worker: Worker) -> Step
    ensures { result ≡ step_of line slot worker }
{
    Step {
        line,
        pipe: slot.pipe,
        token: slot.token,
        place: slot.place,
        worker,
    }
}
