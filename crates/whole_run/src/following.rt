// The choices of a run, one after the other.
ghost use Rattle.std.specs.Prelude.{◌≡◌};
ghost use Rattle.rules.specs.Choices.{choices_in, answers, follow as followed};
ghost use Rattle.tables.specs.Calls.{memory_source};
ghost use Rattle.state.specs.Machines.{machine_of};
ghost use Rattle.whole_run.specs.Checksums.{checksum};

use crate::{Way, checksum};
use engine::Chosen;
use state::State;
use vocabulary::{Line, Refusal, Worker};

// Makes each two bytes a choice, the worker and then the line; a lone last byte is ignored. Returns the checksum of the answers.
// (What a choice returned is kept whole, which saves a copy of the state; the first answer is not looked at.)
pub(crate) fn follow<W: Way>(state: State, choices: &[u8], mem: &mut [u16]) -> u64
    ensures answer { result ≡ checksum 0 (answers memory_source (machine_of state mem.old) (choices_in choices.now)) }
    ensures memory { mem.new ≡ (followed memory_source (machine_of state mem.old) (choices_in choices.now)).source.1 }
{
    let mut chosen = Chosen {
        answer: Err(Refusal::Spoiled),
        state,
    };
    let mut sum = 0;
    for choice in choices.chunks_exact(2) {
        let worker = Worker(u16::from(choice[0]));
        let line = Line(u16::from(choice[1]));
        W::choose(&mut chosen, mem, worker, line);
        sum = checksum::add(sum, chosen.answer);
    }
    sum
}
