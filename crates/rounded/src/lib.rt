// Choices of a run with its rounding (02, 2.2): a choice, an offer, and the taking of what was offered.
#![tactic(auto)]

mod leave;

ghost use Rattle.std.specs.Prelude.{◌≡◌, List, ℕ};
ghost use Rattle.rules.specs.Answers.{answer_of};
ghost use Rattle.vocabulary.specs.Refusals.{number_of};
ghost use Rattle.rules.specs.Rounding.{choose_rounded};
ghost use Rattle.rules.specs.RoundedOffers.{offer_rounded, take_record_rounded, take_rounded};
ghost use Rattle.tables.specs.Calls.{memory_source};
ghost use Rattle.engine.specs.Machines.{chosen_of as chosen_by};
ghost use Rattle.rounding.specs.Roundings.{rounding_of};
ghost use Rattle.rounding.specs.Settlings.{settle_by};
ghost use Rattle.rounding.specs.Runs.{run_of};
ghost use Rattle.rounded.specs.Runs.{lent, chosen_of, joined};

use leave::leave_for;
use rounding::{Rounding, Run};
use vocabulary::{Event, EventRecord, Line, Refusal, Worker};

// What a choice returns: its answer, and the run after it. (A type of its own: the theorems of rounding_demands speak of `answer` and `run`.)
#[derive(Clone, Copy)]
pub struct Chosen {
    pub answer: Result<Event, Refusal>,
    pub run: Run,
}

// A choice that was made or refused, with what its answer does to T and the figures. (Inlined: as a call it would copy the run.)
#[inline(always)]
#[tactic(auto, unfolding(crate::specs::Runs::chosen_of, engine::specs::Machines::chosen_of, rounding::specs::Runs::run_of))]
fn settled(rounding: Rounding, chosen: engine::Chosen, cells: &[u32], figures: &mut [u32]) -> Chosen
    ensures { (m : List ℕ) → chosen_of result m figures.new ≡ joined (chosen_by chosen m) (rounding_of rounding)
        (settle_by (rounding_of rounding) (answer_of chosen.answer) cells.now figures.old) }
{
    let answer = chosen.answer;
    let after = rounding::settle(rounding, answer, cells, figures).unwrap_or(rounding);
    Chosen {
        answer,
        run: Run {
            state: chosen.state,
            rounding: after,
        },
    }
}

// A choice of a run with its rounding, with the cells and figures that are lent to it: T and a token's figure change where its cell passes.
// (What is lent stays three parameters: `mem.new` and `figures.new` of these clauses are no fields of a struct that holds `&mut`.)
#[tactic(auto, using(crate::proofs::Calls::spoiled_choice, crate::proofs::Calls::chosen))]
pub fn choose_rounded(
    run: Run,
    mem: &mut [u16],
    cells: &[u32],
    figures: &mut [u32],
    worker: Worker,
    line: Line,
) -> Chosen
    ensures { chosen_of result mem.new figures.new ≡
        choose_rounded memory_source (run_of run mem.old) (lent worker.0 line.0 cells.now figures.old) }
{
    let rounding = run.rounding;
    let serial = run.state.serial;
    if !rounding::in_range(rounding, run.state.pipes, &serial) {
        return Chosen {
            answer: Err(Refusal::Spoiled),
            run,
        };
    }
    let leave = leave_for(run, cells, figures.len(), line);
    let chosen = engine::choose_if(run.state, mem, worker, line, leave);
    settled(rounding, chosen, cells, figures)
}

// What such a choice would answer: its event, or why it is refused. Nothing is written.
#[tactic(auto, using(crate::proofs::Calls::offered))]
pub fn offer_rounded(
    run: Run,
    mem: &[u16],
    cells: &[u32],
    figures: &[u32],
    worker: Worker,
    line: Line,
) -> Result<Event, Refusal>
    ensures { answer_of result ≡
        offer_rounded memory_source (run_of run mem.now) (lent worker.0 line.0 cells.now figures.now) }
{
    let rounding = run.rounding;
    let state = run.state;
    if !rounding::in_range(rounding, state.pipes, &state.serial) {
        return Err(Refusal::Spoiled);
    }
    let event = engine::offer(state, mem, worker, line)?;
    leave_for(run, cells, figures.len(), line)?;
    Ok(event)
}

// The choice that a record names, made only if its event is the record's, and refused with `other` where it is another; what rounding has
// against it comes before that.
#[tactic(auto, using(crate::proofs::Calls::spoiled_taking, crate::proofs::Calls::taken, crate::proofs::Calls::turned_down))]
fn take_record(
    run: Run,
    mem: &mut [u16],
    cells: &[u32],
    figures: &mut [u32],
    wanted: EventRecord,
    other: Refusal,
) -> Chosen
    ensures { chosen_of result mem.new figures.new ≡
        take_record_rounded memory_source (run_of run mem.old) wanted cells.now figures.old (number_of other) }
{
    let rounding = run.rounding;
    let state = run.state;
    if !rounding::in_range(rounding, state.pipes, &state.serial) {
        return Chosen {
            answer: Err(Refusal::Spoiled),
            run,
        };
    }
    let worker = Worker(wanted.worker);
    let line = Line(wanted.line);
    if let Err(why) = leave_for(run, cells, figures.len(), line) {
        let refused = engine::choose_if(state, mem, worker, line, Err(why));
        return settled(rounding, refused, cells, figures);
    }
    let taken = engine::take_record(state, mem, wanted, other);
    settled(rounding, taken, cells, figures)
}

// Takes an event that was offered, if it is still what its line would do.
pub fn take_rounded(
    run: Run,
    mem: &mut [u16],
    cells: &[u32],
    figures: &mut [u32],
    event: Event,
) -> Chosen
    ensures { chosen_of result mem.new figures.new ≡
        take_rounded memory_source (run_of run mem.old) event cells.now figures.old }
{
    take_record(
        run,
        mem,
        cells,
        figures,
        event.record(),
        Refusal::OtherEvent,
    )
}
