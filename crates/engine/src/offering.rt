// An offer tells what a choice would answer. A taking makes the choice only if its event is the one that is handed in: that is found out
// before anything is written.
ghost use Rattle.std.specs.Prelude.{◌≡◌, List, ℕ, Ok};
ghost use Rattle.vocabulary.specs.Refusals.{number_of};
ghost use Rattle.rules.specs.Answers.{answer_of};
ghost use Rattle.rules.specs.RunState.{slot_at};
ghost use Rattle.rules.specs.Offers.{offer as offered_by, shown as shown_by, take_record, take_offered};
ghost use Rattle.tables.specs.Calls.{memory_source};
ghost use Rattle.state.specs.Machines.{machine_of, whole};
ghost use Rattle.engine.specs.Machines.{chosen_of};
ghost use Rattle.engine.specs.Turns.{Tells};
ghost use Rattle.engine.specs.Taking.{agrees_with, leave_if};

use crate::turn::{Choice, Move};
use crate::{Chosen, choose_if, finishing, move_of, starting};
use state::{Figures, SLOTS, State};
use vocabulary::{Event, EventRecord, Line, Refusal, Slot, Slots, Worker};

// What a move would answer.
pub(crate) fn would(
    f: Figures,
    next: Move,
    counters: &[u8; 512],
    mem: &[u16],
    choice: Choice,
) -> Result<Event, Refusal>
    requires { (slots : Slots) × Tells f counters.now slots choice.worker.0 choice.line.0 mem.now (Ok next) }
    ensures { (slots : Slots) → Tells f counters.now slots choice.worker.0 choice.line.0 mem.now (Ok next) →
        answer_of result ≡ offered_by memory_source (machine_of (whole f counters.now slots) mem.now) choice.worker.0 choice.line.0 }
{
    match next {
        Move::Start(slot) => starting::would_start(f, slot, mem, choice),
        Move::Finish(slot) => finishing::would_finish(f, slot, counters, mem, choice.line),
    }
}

// What a choice would answer, worked out.
fn answer_of(
    f: Figures,
    slots: Slots,
    counters: &[u8; 512],
    mem: &[u16],
    choice: Choice,
) -> Result<Event, Refusal>
    ensures { answer_of result ≡ offered_by memory_source (machine_of (whole f counters.now slots) mem.now) choice.worker.0 choice.line.0 }
{
    let next = move_of(f, slots, counters, mem, choice)?;
    would(f, next, counters, mem, choice)
}

// What a choice would answer: its event, or why it is refused. Nothing is written.
pub fn offer(s: State, mem: &[u16], worker: Worker, line: Line) -> Result<Event, Refusal>
    ensures { answer_of result ≡ offered_by memory_source (machine_of s mem.now) worker.0 line.0 }
{
    let choice = Choice { worker, line };
    answer_of(s.figures(), s.slots(), &s.counters, mem, choice)
}

// What a line's slot and the tables say that it does next. Nothing else is looked at: a choice that is accepted gives just this.
fn shown(f: Figures, slot: Slot, mem: &[u16], choice: Choice) -> Result<Event, Refusal>
    ensures { (counters : List ℕ) (slots : Slots) → slot_at slots choice.line.0 ≡ slot →
        answer_of result ≡ shown_by memory_source (machine_of (whole f counters slots) mem.now) choice.worker.0 choice.line.0 }
{
    if slot.running {
        return Ok(finishing::finished(slot, choice.line));
    }
    starting::would_start(f, slot, mem, choice)
}

// Whether an answer is the event of this record.
fn is_answer(answer: Result<Event, Refusal>, wanted: EventRecord) -> bool
    ensures { result ≡ agrees_with answer wanted }
{
    match answer {
        Ok(event) => event.record().same(wanted),
        Err(_) => false,
    }
}

// Leave where the answer is the event of this record, and else the other refusal.
fn leave_for(
    answer: Result<Event, Refusal>,
    wanted: EventRecord,
    other: Refusal,
) -> Result<(), Refusal>
    ensures { result ≡ leave_if (agrees_with answer wanted) other }
{
    if is_answer(answer, wanted) {
        Ok(())
    } else {
        Err(other)
    }
}

// The choice that a record names, made only if its event is the record's, and refused with `other` where it is another. (The slot is
// read here: in a function of its own the state would be copied once more.)
pub fn take_record(s: State, mem: &mut [u16], wanted: EventRecord, other: Refusal) -> Chosen
    ensures { chosen_of result mem.new ≡ take_record memory_source (machine_of s mem.old) wanted (number_of other) }
{
    let choice = Choice {
        worker: Worker(wanted.worker),
        line: Line(wanted.line),
    };
    let l = usize::from(wanted.line);
    let mut leave = Err(other);
    if l < SLOTS {
        let slots = s.slots();
        let slot = Slot {
            pipe: slots.at[l],
            running: slots.running[l],
            token: slots.token[l],
            place: slots.place[l],
            worker: slots.worker[l],
        };
        let told = shown(s.figures(), slot, mem, choice);
        leave = leave_for(told, wanted, other);
    }
    choose_if(s, mem, choice.worker, choice.line, leave)
}

// Takes an event that was offered, if it is still what its line would do.
pub fn take_offered(s: State, mem: &mut [u16], event: Event) -> Chosen
    ensures { chosen_of result mem.new ≡ take_offered memory_source (machine_of s mem.old) event }
{
    take_record(s, mem, event.record(), Refusal::OtherEvent)
}
