// The state of a run: its numbers, and its end.
#![tactic(auto)]

mod ending;
mod limits;

ghost use Rattle.std.specs.Prelude.{◌≡◌, true, List, ℕ};
ghost use Rattle.rules.specs.Ranges.{sound as sound_by};
ghost use Rattle.rules.specs.Choices.{ended as ended_by};
ghost use Rattle.tables.specs.Calls.{memory_source};
ghost use Rattle.state.specs.Machines.{machine_of, slots_of, figures_of};
ghost use Rattle.state.specs.Ending.{ended_of};

pub use ending::is_over;
pub use limits::{
    COUNTERS, COUNTERS_OF_LINE, FLAGS, MOST_LINES, MOST_PIPES, MOST_TOKENS, MOST_WORKERS, SLOTS,
};
use tables::Tables;
use vocabulary::{Pipe, Place, Slots, Token, Worker};

// The state of a run: P, L, W, how many tokens have a place, whether the run is marked stopped, the numbers of the token tables,
// N among them, which pipes are serial, the join counters (16 to a line), and what each line does: its pipe, whether it runs, its
// token, its place and its worker. (The large arrays come last: a state is copied at each choice, and they are then copied by themselves.)
#[derive(Clone, Copy)]
pub struct State {
    pub pipes: u16,
    pub lines: u16,
    pub workers: u16,
    pub placed: u16,
    pub stopped: bool,
    pub tables: Tables,
    pub serial: [bool; 16],
    pub counters: [u8; 512],
    pub at: [Pipe; 32],
    pub running: [bool; 32],
    pub token: [Token; 32],
    pub place: [Place; 32],
    pub worker: [Worker; 32],
}

// The state but for its counters and slots.
#[derive(Clone, Copy)]
pub struct Figures {
    pub pipes: u16,
    pub lines: u16,
    pub workers: u16,
    pub placed: u16,
    pub stopped: bool,
    pub tables: Tables,
    pub serial: [bool; 16],
}

impl State {
    // What its lines do.
    pub fn slots(self) -> Slots
        ensures { result ≡ slots_of self }
    {
        let at = self.at;
        let running = self.running;
        let token = self.token;
        let place = self.place;
        let worker = self.worker;
        Slots {
            at,
            running,
            token,
            place,
            worker,
        }
    }

    // The rest of it but for the counters.
    pub fn figures(self) -> Figures
        ensures { result ≡ figures_of self }
    {
        let serial = self.serial;
        Figures {
            pipes: self.pipes,
            lines: self.lines,
            workers: self.workers,
            placed: self.placed,
            stopped: self.stopped,
            tables: self.tables,
            serial,
        }
    }
}

// Whether the run has ended; no where a line or a pipe lies outside the tables.
pub fn ended(s: State) -> bool
    ensures answer { result ≡ ended_of s }
    ensures rules { (m : List ℕ) → sound_by memory_source (machine_of s m) ≡ true → result ≡ ended_by (machine_of s m) }
{
    is_over(s.stopped, s.lines, s.slots(), &s.counters)
}
