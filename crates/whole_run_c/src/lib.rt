// A whole run in one call, for programs in other languages: tests/bench/ times it.
#![tactic(auto)]

ghost use Rattle.std.specs.Prelude.{◌≡◌};
ghost use Rattle.whole_run.specs.Runs.{run_of};

// Opens the plan of a file for so many workers and makes each two bytes a choice. Returns the checksum of the answers, or the
// number of a refused opening.
#[unsafe(no_mangle)]
pub extern "C" fn pipeline_run(file: &[u8], workers: u16, choices: &[u8], mem: &mut [u16]) -> u64
    ensures answer { result ≡ (run_of file.now workers choices.now mem.old).0 }
    ensures memory { mem.new ≡ (run_of file.now workers choices.now mem.old).1 }
{
    whole_run::pipeline_run(file, workers, choices, mem)
}
