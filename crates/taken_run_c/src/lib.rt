// A whole run in one call by offers and the taking of what was offered, for programs in other languages: tests/bench/ times it.
#![tactic(auto)]

ghost use Rattle.std.specs.Prelude.{◌≡◌};
ghost use Rattle.whole_run.specs.Runs.{run_of};

// Opens the plan of a file for so many workers; each two bytes are a choice, which is offered; an event that is offered is then taken.
// Returns the checksum of the offers' answers, or the number of a refused opening.
#[unsafe(no_mangle)]
pub extern "C" fn pipeline_run_taken(
    file: &[u8],
    workers: u16,
    choices: &[u8],
    mem: &mut [u16],
) -> u64
    ensures answer { result ≡ (run_of file.now workers choices.now mem.old).0 }
    ensures memory { mem.new ≡ (run_of file.now workers choices.now mem.old).1 }
{
    taken_run::pipeline_run_taken(file, workers, choices, mem)
}
