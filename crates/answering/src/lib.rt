// What the console answers to a command, one line each, on byte slices. Nothing here trusts its caller.
#![tactic(auto)]

mod choices;
mod lines;

ghost use Rattle.std.specs.Prelude.{◌≡◌, List, [], ◌∷◌, ℕ};
ghost use Rattle.plan.specs.Reading.{read_of, reading_of};
ghost use Rattle.rules.specs.Lists.{if};
ghost use Rattle.session.specs.Begun.{is_accepted};
ghost use Rattle.marking.specs.Marking.{walked, mark_of, left_memory};
ghost use Rattle.journal_file.specs.Records.{records_in};
ghost use Rattle.sink.specs.Sinks.{put_each};
ghost use Rattle.answering.specs.Lines.{reading_texts, marking_texts};
ghost use Rattle.answering.specs.Answers.{held_of, opened_in, opened_rounded_in, told, figures_in, sum_in, ended_in, answered};

use choices::{choose_line, offer_line, take_event};
use commands::{Command, RoundingAt};
use rounding::Run;
use sink::Sink;
use vocabulary::Refusal;

// A run that goes on, with how many cells and figures are lent to it; and where its output goes.
#[derive(Clone, Copy)]
pub struct Talk {
    pub run: Run,
    pub lent: usize,
    pub sink: Sink,
}

// `plan PATH`, once the file is read: `P p l n r e` or `R n`.
pub fn answer_plan(talk: Talk, file: &[u8], out: &mut [u8]) -> Talk
    ensures run { (result.run ≡ talk.run) × (result.lent ≡ talk.lent) }
    ensures output { (result.sink, out.new) ≡
        put_each (talk.sink, out.old) (reading_texts (reading_of (read_of file.now))) }
{
    Talk {
        sink: lines::put_reading(talk.sink, out, plan::read(file)),
        ..talk
    }
}

// `mark W PATH`, once the journal is read, in lent memory of its own: `complete`, `correct so far`, `wrong i n` or `R n`.
pub fn answer_mark(
    talk: Talk,
    file: &[u8],
    workers: u16,
    journal: &[u8],
    mem: &mut [u16],
    out: &mut [u8],
) -> Talk
    ensures run { (result.run ≡ talk.run) × (result.lent ≡ talk.lent) }
    ensures memory { mem.new ≡ left_memory (walked file.now workers (records_in journal.now) mem.old) }
    ensures output { (result.sink, out.new) ≡ put_each (talk.sink, out.old)
        (marking_texts (mark_of file.now workers (records_in journal.now) mem.old)) }
{
    let marking = journal_file::mark_file(file, workers, journal, mem);
    Talk {
        sink: lines::put_marking(talk.sink, out, marking),
        ..talk
    }
}

// `open W`: `A`, or `R n`. The run is without rounding, and nothing is lent to it.
#[tactic(auto, using(crate::proofs::Laws::opened_is))]
fn open_run(talk: Talk, file: &[u8], workers: u16, mem: &mut [u16], out: &mut [u8]) -> Talk
    ensures { (cells figures : List ℕ) → held_of result mem.new cells figures out.new ≡
        opened_in file.now workers (held_of talk mem.old cells figures out.old) }
{
    let opened = opening::open(file, workers, mem);
    Talk {
        run: rounding::without_rounding(opened.state),
        lent: 0,
        sink: lines::put_opening(talk.sink, out, opened.answer),
    }
}

// How many cells are lent after an opening.
#[tactic(auto, using(crate::proofs::Laws::lent_all, crate::proofs::Laws::lent_none))]
fn lent_after(answer: Result<(), Refusal>, many: usize) -> usize
    ensures { result ≡ if (is_accepted answer) many 0 }
{
    match answer {
        Ok(()) => many,
        Err(_) => 0,
    }
}

// `open W PIPE BASE PATH`, once so many cells are read, with as many figures: `A`, or `R n`.
#[tactic(auto, using(crate::proofs::Laws::lent_size))]
pub fn answer_open_rounded(
    talk: Talk,
    file: &[u8],
    asked: RoundingAt,
    many: usize,
    mem: &mut [u16],
    cells: &[u32],
    figures: &mut [u32],
    out: &mut [u8],
) -> Talk
    ensures { held_of result mem.new cells.now figures.new out.new ≡
        opened_rounded_in file.now asked many
        (held_of talk mem.old cells.now figures.old out.old) }
{
    let m = many.min(cells.len());
    let n = many.min(figures.len());
    let opened = rounded_opening::open_rounded(
        file,
        asked.workers,
        asked.pipe,
        asked.base,
        mem,
        &cells[..m],
        &mut figures[..n],
    );
    Talk {
        run: opened.run,
        lent: lent_after(opened.answer, many),
        sink: lines::put_opening(talk.sink, out, opened.answer),
    }
}

// A line as it stands; the run stays. (Inlined: as a call it would copy the run.)
#[inline(always)]
#[tactic(auto, using(crate::proofs::Laws::told_is))]
fn tell(talk: Talk, text: &[u8], out: &mut [u8]) -> Talk
    ensures { (m cells figures : List ℕ) → held_of result m cells figures out.new ≡
        told (text.now ∷ []) (held_of talk m cells figures out.old) }
{
    Talk {
        sink: talk.sink.put(out, text),
        ..talk
    }
}

// `figures`: `C f f ..`, the lent figures.
#[tactic(auto, using(crate::proofs::Laws::figures_told))]
fn tell_figures(talk: Talk, figures: &[u32], out: &mut [u8]) -> Talk
    ensures { (m cells : List ℕ) → held_of result m cells figures.now out.new ≡
        figures_in (held_of talk m cells figures.now out.old) }
{
    let n = talk.lent.min(figures.len());
    Talk {
        sink: printing::put_line(talk.sink, out, b"C", &figures[..n]),
        ..talk
    }
}

// `sum`: `T n`.
#[tactic(auto, using(crate::proofs::Laws::sum_told))]
fn tell_sum(talk: Talk, out: &mut [u8]) -> Talk
    ensures { (m cells figures : List ℕ) → held_of result m cells figures out.new ≡
        sum_in (held_of talk m cells figures out.old) }
{
    let numbers = [talk.run.rounding.sum];
    Talk {
        sink: printing::put_line(talk.sink, out, b"T", &numbers),
        ..talk
    }
}

// `ended`: `E` or `O`. (Two returns: as the value of an `if` the run would be copied once more.)
#[tactic(auto, using(crate::proofs::Laws::ended_is, crate::proofs::Laws::not_ended_is))]
fn tell_end(talk: Talk, out: &mut [u8]) -> Talk
    ensures { (m cells figures : List ℕ) → held_of result m cells figures out.new ≡
        ended_in (held_of talk m cells figures out.old) }
{
    if state::ended(talk.run.state) {
        return tell(talk, b"E\n", out);
    }
    tell(talk, b"O\n", out)
}

// Any command but those that read a file and `quit`, which are left to the program: it reads the file, and ends.
// (No struct of the lent buffers: choices.rt says why.)
pub fn answer(
    talk: Talk,
    command: Command,
    file: &[u8],
    mem: &mut [u16],
    cells: &[u32],
    figures: &mut [u32],
    out: &mut [u8],
) -> Talk
    ensures { held_of result mem.new cells.now figures.new out.new ≡
        answered file.now command (held_of talk mem.old cells.now figures.old out.old) }
{
    match command {
        Command::Open(workers) => open_run(talk, file, workers, mem, out),
        Command::Choose(choice) => choose_line(talk, choice, mem, cells, figures, out),
        Command::Offer(choice) => offer_line(talk, choice, mem, cells, figures, out),
        Command::Take(event) => take_event(talk, event, mem, cells, figures, out),
        Command::Figures => tell_figures(talk, figures, out),
        Command::Sum => tell_sum(talk, out),
        Command::Ended => tell_end(talk, out),
        Command::Unknown => tell(talk, b"?\n", out),
        Command::Plan(_) | Command::OpenRounded(_) | Command::Mark(_) | Command::Quit => talk,
    }
}
