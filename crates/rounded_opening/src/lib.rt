// Opening a run with rounding (02, 2.2): an opening's own checks, then those of the rounding; and only then anything is written.
#![tactic(auto)]

ghost use Rattle.std.specs.Prelude.{◌≡◌};
ghost use Rattle.rounded_opening.specs.RoundedOpenings.{refused_rounded, open_rounded_of};

use rounding::Run;
use vocabulary::{Pipe, Refusal};

// The answer, and the run beside it: a refused opening has a state of zeros, without rounding. (A type of its own, and the answer beside the run:
// the theorems of rounding_demands speak of `answer` and `run`, of a refused opening too.)
#[derive(Clone, Copy)]
pub struct Opened {
    pub answer: Result<(), Refusal>,
    pub run: Run,
}

// A refused opening: a state of zeros, without rounding.
fn refused(why: Refusal) -> Opened
    ensures { result ≡ refused_rounded why }
{
    Opened {
        answer: Err(why),
        run: rounding::without_rounding(opening::refused(why).state),
    }
}

// Opens a run with rounding: loads the plan from its file into the lent memory, makes the run's state, and clears the figures.
// (The plan is read twice: what is refused by the rounding must write nothing.)
pub fn open_rounded(
    file: &[u8],
    workers: u16,
    pipe: Pipe,
    base: u16,
    mem: &mut [u16],
    cells: &[u32],
    figures: &mut [u32],
) -> Opened
    ensures answer { result ≡
        (open_rounded_of file.now workers pipe.0 base mem.old cells.now figures.old).returned }
    ensures memory { mem.new ≡
        (open_rounded_of file.now workers pipe.0 base mem.old cells.now figures.old).memory }
    ensures left { figures.new ≡
        (open_rounded_of file.now workers pipe.0 base mem.old cells.now figures.old).figures }
{
    let first = opening::preview(file, workers, mem);
    if let Err(why) = first.answer {
        return refused(why);
    }
    let serial = first.state.serial;
    let tokens = first.state.tables.tokens;
    match rounding::open(
        pipe,
        base,
        first.state.pipes,
        &serial,
        tokens,
        cells,
        figures,
    ) {
        Err(why) => refused(why),
        Ok(rounding) => {
            let opened = opening::open(file, workers, mem);
            Opened {
                answer: opened.answer,
                run: Run {
                    state: opened.state,
                    rounding,
                },
            }
        }
    }
}
