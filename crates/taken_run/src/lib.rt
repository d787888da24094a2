// A whole run in one call by offers and the taking of what was offered, for programs in other languages: tests/bench/ times it.
#![tactic(auto)]

ghost use Rattle.std.specs.Prelude.{◌≡◌};
ghost use Rattle.whole_run.specs.Runs.{run_of};

use engine::Chosen;
use vocabulary::{Line, Refusal, Worker};
use whole_run::Way;

// By an offer, and the taking of the event that was offered; where none was, nothing is called. (`take_offered` is this call of
// `take_record`; a call between would copy the state once more.)
struct ByTaking;

impl Way for ByTaking {
    #[tactic(auto, using(crate::proofs::Taking::refused_way))]
    fn choose(chosen: &mut Chosen, mem: &mut [u16], worker: Worker, line: Line) {
        match engine::offer(chosen.state, mem, worker, line) {
            Ok(event) => {
                let record = event.record();
                *chosen = engine::take_record(chosen.state, mem, record, Refusal::OtherEvent);
            }
            Err(why) => chosen.answer = Err(why),
        }
    }
}

// Opens the plan of a file for so many workers; each two bytes are a choice, which is offered; an event that is offered is then taken.
// Returns the checksum of the offers' answers, or the number of a refused opening.
pub fn pipeline_run_taken(file: &[u8], workers: u16, choices: &[u8], mem: &mut [u16]) -> u64
    ensures answer { result ≡ (run_of file.now workers choices.now mem.old).0 }
    ensures memory { mem.new ≡ (run_of file.now workers choices.now mem.old).1 }
{
    whole_run::run_by::<ByTaking>(file, workers, choices, mem)
}
