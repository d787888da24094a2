// The answers to choices, offers and takings: the first cells and figures are lent, as many as the run has.
// `mem`, `cells` and `figures` are in no struct, here, in `serving` and in the program: behind a `&mut` of it each contract would have
// to say besides that the references stay the same ones (tried: without that the program's functions get no proof).
ghost use Rattle.std.specs.Prelude.{◌≡◌};
ghost use Rattle.answering.specs.Answers.{held_of, chosen_in, offered_in, taken_in};

use crate::Talk;
use commands::Choice;
use vocabulary::Event;

// `choose WORKER LINE`: the answer of the choice.
#[tactic(auto, using(crate::proofs::Laws::lent_size))]
pub(crate) fn choose_line(
    talk: Talk,
    choice: Choice,
    mem: &mut [u16],
    cells: &[u32],
    figures: &mut [u32],
    out: &mut [u8],
) -> Talk
    ensures { held_of result mem.new cells.now figures.new out.new ≡
        chosen_in choice (held_of talk mem.old cells.now figures.old out.old) }
{
    let Choice { worker, line } = choice;
    let m = talk.lent.min(cells.len());
    let n = talk.lent.min(figures.len());
    let chosen = rounded::choose_rounded(
        talk.run,
        mem,
        &cells[..m],
        &mut figures[..n],
        worker,
        line,
    );
    Talk {
        run: chosen.run,
        sink: printing::put_answer(talk.sink, out, chosen.answer),
        ..talk
    }
}

// `offer WORKER LINE`: the answer that the choice would get.
#[tactic(auto, using(crate::proofs::Laws::offered_is, crate::proofs::Laws::lent_size))]
pub(crate) fn offer_line(
    talk: Talk,
    choice: Choice,
    mem: &[u16],
    cells: &[u32],
    figures: &[u32],
    out: &mut [u8],
) -> Talk
    ensures { held_of result mem.now cells.now figures.now out.new ≡
        offered_in choice (held_of talk mem.now cells.now figures.now out.old) }
{
    let Choice { worker, line } = choice;
    let m = talk.lent.min(cells.len());
    let n = talk.lent.min(figures.len());
    let answer = rounded::offer_rounded(talk.run, mem, &cells[..m], &figures[..n], worker, line);
    Talk {
        sink: printing::put_answer(talk.sink, out, answer),
        ..talk
    }
}

// `take`: the answer of the choice that gives the event, or 19.
#[tactic(auto, using(crate::proofs::Laws::lent_size))]
pub(crate) fn take_event(
    talk: Talk,
    event: Event,
    mem: &mut [u16],
    cells: &[u32],
    figures: &mut [u32],
    out: &mut [u8],
) -> Talk
    ensures { held_of result mem.new cells.now figures.new out.new ≡
        taken_in event (held_of talk mem.old cells.now figures.old out.old) }
{
    let m = talk.lent.min(cells.len());
    let n = talk.lent.min(figures.len());
    let taken = rounded::take_rounded(talk.run, mem, &cells[..m], &mut figures[..n], event);
    Talk {
        run: taken.run,
        sink: printing::put_answer(talk.sink, out, taken.answer),
        ..talk
    }
}
