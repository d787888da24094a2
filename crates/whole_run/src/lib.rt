// A whole run in one call, for programs in other languages: tests/bench/ times it.
#![tactic(auto)]

mod checksum;
mod following;

ghost use Rattle.std.specs.Prelude.{◌≡◌};
ghost use Rattle.rules.specs.Choices.{choose as chosen_by};
ghost use Rattle.tables.specs.Calls.{memory_source};
ghost use Rattle.state.specs.Machines.{machine_of};
ghost use Rattle.engine.specs.Machines.{chosen_of};
ghost use Rattle.whole_run.specs.Runs.{run_of};

pub use checksum::add;
use engine::Chosen;
use vocabulary::{Line, Worker};

// A way to make a choice: whatever it calls, the choice is made as the rules make it. (What the choice before returned is changed in place, so
// that a way which finds the choice refused copies no state: docs/DECISIONS.md.)
pub trait Way {
    fn choose(chosen: &mut Chosen, mem: &mut [u16], worker: Worker, line: Line)
        ensures { chosen_of chosen.new mem.new ≡ chosen_by memory_source (machine_of chosen.old.state mem.old) worker.0 line.0 };
}

// By one call. (`choose` is this call of `choose_if`; a call between would copy the state once more.)
struct ByChoice;

impl Way for ByChoice {
    fn choose(chosen: &mut Chosen, mem: &mut [u16], worker: Worker, line: Line) {
        *chosen = engine::choose_if(chosen.state, mem, worker, line, Ok(()));
    }
}

// Opens the plan of a file for so many workers and makes each two bytes a choice, in this way. Returns the checksum of the answers, or the
// number of a refused opening.
#[tactic(auto, using(crate::proofs::Summing::accepted_run))]
pub fn run_by<W: Way>(file: &[u8], workers: u16, choices: &[u8], mem: &mut [u16]) -> u64
    ensures answer { result ≡ (run_of file.now workers choices.now mem.old).0 }
    ensures memory { mem.new ≡ (run_of file.now workers choices.now mem.old).1 }
{
    let opened = opening::open(file, workers, mem);
    match opened.answer {
        Ok(()) => following::follow::<W>(opened.state, choices, mem),
        Err(why) => u64::from(why.number()),
    }
}

// The same, each choice by one call.
pub fn pipeline_run(file: &[u8], workers: u16, choices: &[u8], mem: &mut [u16]) -> u64
    ensures answer { result ≡ (run_of file.now workers choices.now mem.old).0 }
    ensures memory { mem.new ≡ (run_of file.now workers choices.now mem.old).1 }
{
    run_by::<ByChoice>(file, workers, choices, mem)
}
