// Calls of the engine on a run, and what they leave.
ghost use Rattle.std.specs.Prelude.{◌≤◌};

use crate::report::{Run, Trial};
use crate::{compare, report};
use engine::Chosen;
use state::State;
use vocabulary::{Event, Line, Refusal, Worker};

// A choice that is tried on a run, with all its memory lent or, `short`, with one number too few.
#[derive(Clone, Copy)]
pub struct Choice {
    pub run: Run,
    pub worker: Worker,
    pub line: Line,
    pub short: bool,
}

// What a call answers, and the run after it.
#[derive(Clone, Copy)]
pub struct After {
    pub answer: Result<Event, Refusal>,
    pub run: Run,
}

// How many numbers are lent: all, or one too few.
pub fn lent(all: usize, short: bool) -> usize
    ensures { result ≤ all }
{
    if short { all.saturating_sub(1) } else { all }
}

impl Choice {
    // A call on its run. (A choice is 64 KiB: so it is lent, here and below.)
    fn called<F: FnOnce(State, &mut [u16]) -> Chosen>(&self, call: F) -> After
        requires { F.IsAlwaysCallable call }
    {
        let mut mem = self.run.mem;
        let count = lent(mem.len(), self.short);
        let chosen = call(self.run.state, &mut mem[..count]);
        After {
            answer: chosen.answer,
            run: Run {
                state: chosen.state,
                mem,
            },
        }
    }

    pub fn made(&self) -> After {
        self.called(|state, mem| engine::choose(state, mem, self.worker, self.line))
    }

    // The taking of an event, whatever was offered.
    pub fn taken(&self, event: Event) -> After {
        self.called(|state, mem| engine::take_offered(state, mem, event))
    }

    // An offer is lent its memory to read, so that only its answer is there to be tried.
    pub fn offered(&self) -> Result<Event, Refusal> {
        let count = lent(self.run.mem.len(), self.short);
        engine::offer(
            self.run.state,
            &self.run.mem[..count],
            self.worker,
            self.line,
        )
    }

    // What is said of a call on its run.
    pub fn trial(&self, after: &After) -> Trial {
        Trial {
            number: report::number_of(after.answer),
            state: compare::same_state(after.run.state, self.run.state),
            memory: after.run.mem == self.run.mem,
        }
    }
}
