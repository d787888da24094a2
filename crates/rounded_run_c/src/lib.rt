// A whole run with its rounding in one call, for programs in other languages: tests/bench/ times it.
#![tactic(auto)]

ghost use Rattle.std.specs.Prelude.{◌≡◌};
ghost use Rattle.rules.specs.Choices.{choices_in};
ghost use Rattle.rounded_run.specs.RoundedWholeRuns.{opened_with, whole_rounded};

// Opens the plan of a file for so many workers, with this pipe and base and these cells, or without rounding if the base is 0, and makes
// each two bytes a choice. Returns the checksum of the answers, or the number of a refused opening.
#[unsafe(no_mangle)]
pub extern "C" fn pipeline_run_rounded(
    file: &[u8],
    workers: u16,
    pipe: u16,
    base: u16,
    choices: &[u8],
    mem: &mut [u16],
    cells: &[u32],
    figures: &mut [u32],
) -> u64
    ensures answer { result ≡ (whole_rounded (opened_with file.now workers pipe base mem.old cells.now figures.old)
        (choices_in choices.now) cells.now).told }
    ensures memory { mem.new ≡
        (whole_rounded (opened_with file.now workers pipe base mem.old cells.now figures.old)
        (choices_in choices.now) cells.now).memory }
    ensures left { figures.new ≡
        (whole_rounded (opened_with file.now workers pipe base mem.old cells.now figures.old)
        (choices_in choices.now) cells.now).figures }
{
    rounded_run::pipeline_run_rounded(file, workers, pipe, base, choices, mem, cells, figures)
}
