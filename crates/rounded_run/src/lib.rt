// A whole run with its rounding in one call, for programs in other languages: tests/bench/ times it.
#![tactic(auto)]

ghost use Rattle.std.specs.Prelude.{◌≡◌};
ghost use Rattle.rules.specs.Choices.{choices_in};
ghost use Rattle.rounding.specs.Runs.{run_of};
ghost use Rattle.rounded_run.specs.RoundedWholeRuns.{opened_with, made_from, whole_rounded};

use rounded::Chosen;
use rounded_opening::Opened;
use rounding::Run;
use vocabulary::{Line, Pipe, Refusal, Worker};

// Opens a run with rounding; with base 0, one without.
#[tactic(auto, using(crate::proofs::Making::plain_opening, crate::proofs::Making::rounded_opening))]
fn opened(
    file: &[u8],
    workers: u16,
    pipe: u16,
    base: u16,
    mem: &mut [u16],
    cells: &[u32],
    figures: &mut [u32],
) -> Opened
    ensures answer { result ≡
        (opened_with file.now workers pipe base mem.old cells.now figures.old).returned }
    ensures memory { mem.new ≡
        (opened_with file.now workers pipe base mem.old cells.now figures.old).memory }
    ensures left { figures.new ≡
        (opened_with file.now workers pipe base mem.old cells.now figures.old).figures }
{
    if base == 0 {
        let plain = opening::open(file, workers, mem);
        return Opened {
            answer: plain.answer,
            run: rounding::without_rounding(plain.state),
        };
    }
    rounded_opening::open_rounded(file, workers, Pipe(pipe), base, mem, cells, figures)
}

// Makes each two bytes a choice, with the same cells lent to each and the figures as the one before left them. Returns the checksum of
// the answers. (What a choice returned is kept whole, which saves a copy of the state; the first answer is not looked at. The loop is not that of
// `whole_run::run_by`: its choices are lent cells and figures besides, and a trait over the run and what is lent would be longer than a loop.)
fn follow(run: Run, choices: &[u8], mem: &mut [u16], cells: &[u32], figures: &mut [u32]) -> u64
    ensures answer { result ≡
        (made_from 0 (run_of run mem.old) (choices_in choices.now) cells.now figures.old).told }
    ensures memory { mem.new ≡
        (made_from 0 (run_of run mem.old) (choices_in choices.now) cells.now figures.old).memory }
    ensures left { figures.new ≡
        (made_from 0 (run_of run mem.old) (choices_in choices.now) cells.now figures.old).figures }
{
    let mut chosen = Chosen {
        answer: Err(Refusal::Spoiled),
        run,
    };
    let mut sum = 0;
    for choice in choices.chunks_exact(2) {
        let worker = Worker(u16::from(choice[0]));
        let line = Line(u16::from(choice[1]));
        chosen = rounded::choose_rounded(chosen.run, mem, cells, figures, worker, line);
        sum = whole_run::add(sum, chosen.answer);
    }
    sum
}

// Opens the plan of a file for so many workers, with this pipe and base and these cells, or without rounding if the base is 0, and makes
// each two bytes a choice. Returns the checksum of the answers, or the number of a refused opening.
#[tactic(auto, using(crate::proofs::Making::accepted_run))]
pub fn pipeline_run_rounded(
    file: &[u8],
    workers: u16,
    pipe: u16,
    base: u16,
    choices: &[u8],
    mem: &mut [u16],
    cells: &[u32],
    figures: &mut [u32],
) -> u64
    ensures answer { result ≡ (whole_rounded (opened_with file.now workers pipe base mem.old cells.now figures.old)
        (choices_in choices.now) cells.now).told }
    ensures memory { mem.new ≡
        (whole_rounded (opened_with file.now workers pipe base mem.old cells.now figures.old)
        (choices_in choices.now) cells.now).memory }
    ensures left { figures.new ≡
        (whole_rounded (opened_with file.now workers pipe base mem.old cells.now figures.old)
        (choices_in choices.now) cells.now).figures }
{
    let start = opened(file, workers, pipe, base, mem, cells, figures);
    match start.answer {
        Ok(()) => follow(start.run, choices, mem, cells, figures),
        Err(why) => u64::from(why.number()),
    }
}
