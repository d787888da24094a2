// A whole run in one call in which each choice is offered and then made, for programs in other languages: tests/bench/ times it.
#![tactic(auto)]

ghost use Rattle.std.specs.Prelude.{◌≡◌};
ghost use Rattle.whole_run.specs.Runs.{run_of};

use engine::Chosen;
use vocabulary::{Line, Worker};
use whole_run::Way;

// By an offer and then the choice: the answer is the offer's.
struct OfferedFirst;

impl Way for OfferedFirst {
    #[tactic(auto, using(crate::proofs::Offering::made_if_as_offered))]
    fn choose(chosen: &mut Chosen, mem: &mut [u16], worker: Worker, line: Line) {
        let answer = engine::offer(chosen.state, mem, worker, line);
        *chosen = engine::choose_if(chosen.state, mem, worker, line, Ok(()));
        chosen.answer = answer;
    }
}

// Opens the plan of a file for so many workers; each two bytes are a choice, which is offered and then made. Returns the checksum of
// the offers' answers, or the number of a refused opening.
pub fn pipeline_run_offered(file: &[u8], workers: u16, choices: &[u8], mem: &mut [u16]) -> u64
    ensures answer { result ≡ (run_of file.now workers choices.now mem.old).0 }
    ensures memory { mem.new ≡ (run_of file.now workers choices.now mem.old).1 }
{
    whole_run::run_by::<OfferedFirst>(file, workers, choices, mem)
}
