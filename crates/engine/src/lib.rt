// The engine: each choice moves a run on; an offer tells what it would answer, and an event that was offered can be taken.
#![tactic(auto)]

mod finishing;
mod offering;
mod starting;
mod turn;

ghost use Rattle.std.specs.Prelude.{◌≡◌, List, ℕ, is_ok};
ghost use Rattle.rules.specs.Choices.{choose as chosen_by};
ghost use Rattle.rules.specs.Offers.{only_if};
ghost use Rattle.tables.specs.Calls.{memory_source};
ghost use Rattle.state.specs.Machines.{machine_of, whole, Ready};
ghost use Rattle.state.specs.Ending.{is_early};
ghost use Rattle.engine.specs.Machines.{chosen_of};
ghost use Rattle.engine.specs.Taking.{other_of};
ghost use Rattle.ranges.specs.Surveys.{survey_of};
ghost use Rattle.engine.specs.Turns.{turned, Fits, Tells};

pub use offering::{offer, take_offered, take_record};
use ranges::Survey;
use state::{COUNTERS_OF_LINE, Figures, State};
use turn::{Change, Choice, Move};
use vocabulary::{Event, Line, Refusal, Slot, Slots, Worker};

// What a choice returns: its answer, and the state after it.
#[derive(Clone, Copy)]
pub struct Chosen {
    pub answer: Result<Event, Refusal>,
    pub state: State,
}

// Whether a line waits with its counter above 0: it cannot move.
#[tactic(auto, unfolding(state::specs::Ending::is_early))]
fn is_early(f: Figures, slot: Slot, counters: &[u8; 512], l: u16) -> bool
    requires { Ready f slot l }
    ensures { result ≡ is_early counters.now slot l }
{
    !slot.running && counters[COUNTERS_OF_LINE * usize::from(l) + usize::from(slot.pipe.0)] != 0
}

// The look over the state. (Figures, slots and counters stay apart, here and in the calls below: few take all three, and a struct of them would
// hold the counters by a reference, with a lifetime in each signature.)
#[inline(always)]
fn look(
    f: Figures,
    slots: Slots,
    counters: &[u8; 512],
    mem: &[u16],
    choice: Choice,
) -> Option<Survey>
    ensures { result ≡ survey_of f counters.now slots mem.now choice.worker.0 choice.line.0 }
{
    let rows = ranges::rows_sound(counters, &f.serial, f.pipes, f.lines);
    let rest = ranges::rest_sound(rows, f, mem);
    ranges::look_over(rest, f, slots, choice.worker.0, choice.line.0)
}

// The checks of a choice, up to its start or finish: what the line does then. (It becomes part of a choice and of an offer, which saves
// copies of the state: only its scan of the counters is shared.)
#[inline(always)]
fn move_of(
    f: Figures,
    slots: Slots,
    counters: &[u8; 512],
    mem: &[u16],
    choice: Choice,
) -> Result<Move, Refusal>
    ensures { Tells f counters.now slots choice.worker.0 choice.line.0 mem.now result }
{
    let Choice { worker, line } = choice;
    let Some(seen) = look(f, slots, counters, mem, choice) else {
        return Err(Refusal::Spoiled);
    };
    if f.lines <= line.0 {
        return Err(Refusal::NoLine);
    }
    if f.workers <= worker.0 {
        return Err(Refusal::WrongWorker);
    }
    let slot = seen.slot;
    // A run in which a line can move has not ended, so only where this one cannot are the others looked at.
    if is_early(f, slot, counters, line.0) {
        if state::is_over(f.stopped, f.lines, slots, counters) {
            return Err(Refusal::Ended);
        }
        return Err(Refusal::Early);
    }
    if slot.running {
        if slot.worker != worker {
            return Err(Refusal::WrongWorker);
        }
        return Ok(Move::Finish(slot));
    }
    if seen.busy {
        return Err(Refusal::WorkerBusy);
    }
    Ok(Move::Start(slot))
}

// A choice, worked out; where it would be made but has no leave, it is refused with what stands in its place.
fn turn_of(
    f: Figures,
    slots: Slots,
    counters: &[u8; 512],
    mem: &mut [u16],
    choice: Choice,
    leave: Result<(), Refusal>,
) -> Result<Change, Refusal>
    ensures fits { Fits choice.line.0 result }
    ensures chooses { chosen_of (turned (whole f counters.now slots) choice.line.0 result) mem.new ≡
        only_if (machine_of (whole f counters.now slots) mem.old) (is_ok leave) (other_of leave)
        (chosen_by memory_source (machine_of (whole f counters.now slots) mem.old) choice.worker.0 choice.line.0) }
{
    let next = move_of(f, slots, counters, mem, choice)?;
    if let Err(other) = leave {
        return offering::would(f, next, counters, mem, choice).and(Err(other));
    }
    match next {
        Move::Start(slot) => starting::start(f, slot, mem, choice),
        Move::Finish(slot) => finishing::finish(f, slot, counters, mem, choice.line),
    }
}

// A choice that is made only with leave, and else refused with what stands in its place; its own refusals come first. (The state is copied
// to be written only after it was taken apart, which saves a copy.)
pub fn choose_if(
    s: State,
    mem: &mut [u16],
    worker: Worker,
    line: Line,
    leave: Result<(), Refusal>,
) -> Chosen
    ensures { chosen_of result mem.new ≡
        only_if (machine_of s mem.old) (is_ok leave) (other_of leave) (chosen_by memory_source (machine_of s mem.old) worker.0 line.0) }
{
    let f = s.figures();
    let slots = s.slots();
    let choice = Choice { worker, line };
    let mut after = s;
    match turn_of(f, slots, &after.counters, mem, choice, leave) {
        Err(why) => Chosen {
            answer: Err(why),
            state: after,
        },
        Ok(change) => {
            after.counters[change.first.at] = change.first.value;
            after.counters[change.second.at] = change.second.value;
            let l = usize::from(line.0);
            after.at[l] = change.slot.pipe;
            after.running[l] = change.slot.running;
            after.token[l] = change.slot.token;
            after.place[l] = change.slot.place;
            after.worker[l] = change.slot.worker;
            after.placed = change.placed;
            after.stopped = change.stopped;
            after.tables = change.tables;
            Chosen {
                answer: Ok(change.event),
                state: after,
            }
        }
    }
}

// A choice names a worker and a line: the line starts, finishes or stops, or the choice is refused.
pub fn choose(s: State, mem: &mut [u16], worker: Worker, line: Line) -> Chosen
    ensures { chosen_of result mem.new ≡ chosen_by memory_source (machine_of s mem.old) worker.0 line.0 }
{
    choose_if(s, mem, worker, line, Ok(()))
}
