// Choices, offers and takings of runs with rounding: with a rounding that no run has, and with too few or too many cells or figures lent.
// Such a try is `rW N PIPE BASE T T CELLS FIGURES CELL CELL EDITS:NAME`: worker W chooses line N, on the run at opening with these edits and
// this rounding; CELLS and FIGURES say how many are lent. T, and the cell of token 2, which is the first to get a place, are each two
// numbers, of which the first counts 65,536s.
ghost use Rattle.std.specs.Prelude.{◌≤◌};

use crate::report::{Run, Trial};
use crate::{compare, report, stored, takings};
use rounded::Chosen;
use rounding::Rounding;
use vocabulary::{Event, Line, Pipe, Worker};

// The rounding of a run, the cells, and how many cells and figures are lent.
#[derive(Clone, Copy)]
pub struct Lent {
    pub rounding: Rounding,
    pub cells: [u32; 4],
    pub many: u16,
    pub figures: u16,
}

// A run with its rounding and its memory.
#[derive(Clone, Copy)]
struct Handed {
    run: rounding::Run,
    mem: [u16; 32768],
    lent: Lent,
}

// Two numbers as one.
fn wide(fd: i32) -> u32 {
    let high = stored::number(fd);
    let low = stored::number(fd);
    u32::from(high) * 65536 + u32::from(low)
}

// What stands before the edits of a try.
pub fn read(fd: i32) -> Lent {
    let pipe = Pipe(stored::number(fd));
    let base = stored::number(fd);
    let sum = wide(fd);
    let many = stored::number(fd);
    let figures = stored::number(fd);
    let cell = wide(fd);
    Lent {
        rounding: Rounding { pipe, base, sum },
        cells: [1, 2, cell, 3],
        many,
        figures,
    }
}

// So many of four.
fn some(n: u16) -> usize
    ensures { result ≤ 4 }
{
    usize::from(n).min(4)
}

fn same_run(a: rounding::Run, b: rounding::Run) -> bool {
    compare::same_state(a.state, b.state)
        && a.rounding.pipe == b.rounding.pipe
        && a.rounding.base == b.rounding.base
        && a.rounding.sum == b.rounding.sum
}

// What is said of a choice or a taking: its number, then the run, the memory and the figures. The figures are lent as sevens.
fn say<F: FnOnce(rounding::Run, &mut [u16], &[u32], &mut [u32]) -> Chosen>(
    words: &[u8],
    handed: &Handed,
    call: F,
)
    requires { F.IsAlwaysCallable call }
{
    let lent = handed.lent;
    let mut mem = handed.mem;
    let mut figures = [7u32; 4];
    let many = some(lent.many);
    let count = some(lent.figures);
    let chosen = call(
        handed.run,
        &mut mem,
        &lent.cells[..many],
        &mut figures[..count],
    );
    let trial = Trial {
        number: report::number_of(chosen.answer),
        state: same_run(chosen.run, handed.run),
        memory: mem == handed.mem,
    };
    report::say(words, trial);
    report::say_same(figures == [7u32; 4]);
}

fn say_choice(handed: &Handed, worker: Worker, line: Line) {
    say(b": ", handed, |run, mem, cells, figures| {
        rounded::choose_rounded(run, mem, cells, figures, worker, line)
    });
}

fn say_taking(words: &[u8], handed: &Handed, event: Event) {
    say(words, handed, |run, mem, cells, figures| {
        rounded::take_rounded(run, mem, cells, figures, event)
    });
}

fn say_offer(handed: &Handed, worker: Worker, line: Line) {
    let lent = handed.lent;
    let figures = [7u32; 4];
    let many = some(lent.many);
    let count = some(lent.figures);
    let offered = rounded::offer_rounded(
        handed.run,
        &handed.mem,
        &lent.cells[..many],
        &figures[..count],
        worker,
        line,
    );
    report::say_offer(report::number_of(offered), false);
}

// The choice, its offer, and the takings of two events that are handed in whatever was offered.
#[inline(never)]
pub fn tried(run: Run, lent: Lent, worker: Worker, line: Line) {
    let Run { state, mem } = run;
    let rounding = lent.rounding;
    let handed = Handed {
        run: rounding::Run { state, rounding },
        mem,
        lent,
    };
    say_choice(&handed, worker, line);
    say_offer(&handed, worker, line);
    say_taking(b"; stop ", &handed, takings::stop_of(worker, line));
    say_taking(
        b"; finish ",
        &handed,
        takings::finish_of(state, worker, line),
    );
}
