// A waiting line with counter 0 starts, or stops.
ghost use Rattle.std.specs.Prelude.{◌≡◌, List, ℕ, ◌<◌};
ghost use Rattle.rules.specs.Choices.{start as started_by};
ghost use Rattle.tables.specs.Calls.{memory_source};
ghost use Rattle.state.specs.Machines.{Ready};
ghost use Rattle.engine.specs.Turns.{Fits, Follows, AnswersAs};
ghost use Rattle.engine.specs.Moves.{overfull_of, refilled, started_change, taken_change, stopped_change, StartsFirst, AnswersFirst};

use crate::turn::{Cell, Change, Choice, step_of};
use state::{COUNTERS_OF_LINE, Figures};
use tables::{Tables, Taken};
use vocabulary::{Event, Pipe, PipeKind, Place, Refusal, Slot, Step, Stop, Token, Worker};

// The counter of a line and pipe, full again.
fn refill(f: Figures, l: usize, p: usize) -> Cell
    requires { (l < 32) × (p < 16) }
    ensures { result ≡ refilled f l p }
{
    Cell {
        at: COUNTERS_OF_LINE * l + p,
        value: PipeKind::from_flag(f.serial[p]).full(),
    }
}

// The worker starts the pipe of this slot on the line, with its token and place.
fn start_at(f: Figures, choice: Choice, slot: Slot) -> Change
    requires { (choice.line.0 < 32) × (slot.pipe.0 < 16) }
    ensures { result ≡ started_change f choice.worker choice.line slot }
{
    let Choice { worker, line } = choice;
    let full = refill(f, usize::from(line.0), usize::from(slot.pipe.0));
    Change {
        event: Event::Started(step_of(line, slot, worker)),
        first: full,
        second: full,
        slot: Slot {
            running: true,
            worker,
            ..slot
        },
        placed: f.placed,
        stopped: f.stopped,
        tables: f.tables,
    }
}

// A start at pipe 0 with a token that was taken, and the tables after it.
fn start_with(f: Figures, choice: Choice, token: u16, tables: Tables) -> Change
    requires { (choice.line.0 < 32) × (f.placed < f.tables.tokens) }
    ensures { result ≡ taken_change f choice.worker choice.line token tables }
{
    let place = Place(f.placed);
    let slot = Slot {
        pipe: Pipe(0),
        running: false,
        token: Token(token),
        place,
        worker: Worker(0),
    };
    let next = Figures {
        placed: f.placed + 1,
        tables,
        ..f
    };
    start_at(next, choice, slot)
}

// A stop: no token is left.
fn stop_line(f: Figures, slot: Slot, choice: Choice, tables: Tables) -> Change
    requires { choice.line.0 < 32 }
    ensures { result ≡ stopped_change f choice.worker choice.line slot tables }
{
    let Choice { worker, line } = choice;
    let full = refill(f, usize::from(line.0), 0);
    Change {
        event: Event::Stopped(Stop { line, worker }),
        first: full,
        second: full,
        slot,
        placed: f.placed,
        stopped: true,
        tables,
    }
}

// Whether taking would give a token that no place is left for.
fn overfull(f: Figures, mem: &[u16]) -> bool
    ensures { result ≡ overfull_of f mem.now }
{
    if f.placed < f.tables.tokens {
        return false;
    }
    match taking::would_take(mem, f.tables) {
        Ok(token) => token.is_some(),
        Err(_) => false,
    }
}

// A start at pipe 0: a token is taken, or there is none.
fn start_first(f: Figures, slot: Slot, mem: &mut [u16], choice: Choice) -> Result<Change, Refusal>
    requires { Ready f slot choice.line.0 }
    ensures fits { Fits choice.line.0 result }
    ensures starts { (counters : List ℕ) → StartsFirst f counters choice.worker.0 choice.line.0 slot result mem.old mem.new }
{
    if overfull(f, mem) {
        return Err(Refusal::Spoiled);
    }
    let Taken { token, tables } = taking::take(mem, f.tables)?;
    match token {
        Some(token) => Ok(start_with(f, choice, token, tables)),
        None => Ok(stop_line(f, slot, choice, tables)),
    }
}

// A start.
pub(crate) fn start(
    f: Figures,
    slot: Slot,
    mem: &mut [u16],
    choice: Choice,
) -> Result<Change, Refusal>
    requires { Ready f slot choice.line.0 }
    ensures fits { Fits choice.line.0 result }
    ensures follows { (counters : List ℕ) → Follows (λ m l. started_by memory_source m choice.worker.0 l) f counters choice.line.0 slot result mem.old mem.new }
{
    if slot.pipe.0 == 0 {
        return start_first(f, slot, mem, choice);
    }
    Ok(start_at(f, choice, slot))
}

// What a start at pipe 0 would answer.
fn would_start_first(f: Figures, mem: &[u16], choice: Choice) -> Result<Event, Refusal>
    ensures { AnswersFirst f choice.worker.0 choice.line.0 result mem.now }
{
    let Choice { worker, line } = choice;
    match taking::would_take(mem, f.tables)? {
        None => Ok(Event::Stopped(Stop { line, worker })),
        Some(token) => {
            if f.tables.tokens <= f.placed {
                return Err(Refusal::Spoiled);
            }
            Ok(Event::Started(Step {
                line,
                pipe: Pipe(0),
                token: Token(token),
                place: Place(f.placed),
                worker,
            }))
        }
    }
}

// What a start would answer.
pub(crate) fn would_start(
    f: Figures,
    slot: Slot,
    mem: &[u16],
    choice: Choice,
) -> Result<Event, Refusal>
    ensures { (counters : List ℕ) → AnswersAs (λ m l. started_by memory_source m choice.worker.0 l) f counters choice.line.0 slot result mem.now }
{
    if slot.pipe.0 == 0 {
        return would_start_first(f, mem, choice);
    }
    Ok(Event::Started(step_of(choice.line, slot, choice.worker)))
}
