// A running line finishes.
ghost use Rattle.std.specs.Prelude.{◌≡◌, ◌<◌};
ghost use Rattle.rules.specs.Choices.{next, moved as moved_of, finish as finished_by};
ghost use Rattle.tables.specs.Calls.{memory_source};
ghost use Rattle.state.specs.Machines.{Ready};
ghost use Rattle.engine.specs.Turns.{Fits, Follows, AnswersAs};
ghost use Rattle.engine.specs.Moves.{lowered_of, left_of, falls_of, cell_of, both_of, FitFalls, finished_event, settled_change};

use crate::turn::{Cell, Change, step_of};
use state::{COUNTERS_OF_LINE, Figures};
use tables::Tables;
use vocabulary::{Event, Line, Pipe, Place, Refusal, Slot, Token, Worker};

// The counters that fall.
#[derive(Clone, Copy)]
pub struct Falls {
    pub first: Cell,
    pub second: Cell,
}

// A counter that falls by one: none goes below 0.
fn lowered(counter: Cell) -> Option<Cell>
    ensures { result ≡ lowered_of counter }
{
    let value = counter.value.checked_sub(1)?;
    Some(Cell { value, ..counter })
}

// The counter ahead once the one beside has fallen: both may be one counter.
fn left_ahead(fallen: Cell, ahead: Cell) -> Cell
    ensures { result ≡ left_of fallen ahead }
{
    if fallen.at == ahead.at { fallen } else { ahead }
}

// The counter beside falls if the pipe is serial, and then the one ahead.
fn fall(serial: bool, beside: Cell, ahead: Cell) -> Option<Falls>
    ensures { result ≡ falls_of serial beside ahead }
{
    if !serial {
        let second = lowered(ahead)?;
        return Some(Falls {
            first: ahead,
            second,
        });
    }
    let first = lowered(beside)?;
    let second = lowered(left_ahead(first, ahead))?;
    Some(Falls { first, second })
}

// The number after, of so many: the first one follows the last.
fn next_of(n: u16, i: u16) -> u16
    requires { i < n }
    ensures { result ≡ next n i }
{
    let after = i + 1;
    if after == n { 0 } else { after }
}

// What a line does that has finished a pipe: it waits at the next, without a worker, and holds no token at pipe 0.
fn moved(slot: Slot, pipes: u16) -> Slot
    requires { slot.pipe.0 < pipes }
    ensures { result ≡ moved_of pipes slot }
{
    let after = slot.pipe.0 + 1;
    if after == pipes {
        return Slot {
            pipe: Pipe(0),
            running: false,
            token: Token(0),
            place: Place(0),
            worker: Worker(0),
        };
    }
    Slot {
        pipe: Pipe(after),
        running: false,
        worker: Worker(0),
        ..slot
    }
}

// The counter of a line and pipe.
fn counter_of(counters: &[u8; 512], l: u16, p: u16) -> Cell
    requires { (l < 32) × (p < 16) }
    ensures { result ≡ cell_of counters.now l p }
{
    let at = COUNTERS_OF_LINE * usize::from(l) + usize::from(p);
    Cell {
        at,
        value: counters[at],
    }
}

// Both falls of a line's finish.
fn both_falls(f: Figures, slot: Slot, counters: &[u8; 512], l: u16) -> Option<Falls>
    requires { Ready f slot l }
    ensures same { result ≡ both_of f counters.now l slot }
    ensures fits { FitFalls result }
{
    let pipe = slot.pipe.0;
    let flag = f.serial[usize::from(pipe)];
    let beside = counter_of(counters, next_of(f.lines, l), pipe);
    let ahead = counter_of(counters, l, next_of(f.pipes, pipe));
    fall(flag, beside, ahead)
}

// The event of a finish.
pub(crate) fn finished(slot: Slot, line: Line) -> Event
    ensures { result ≡ finished_event line slot }
{
    Event::Finished(step_of(line, slot, slot.worker))
}

// The finish, with the counters that fall and the tables that it leaves.
fn settle(f: Figures, slot: Slot, line: Line, fallen: Falls, tables: Tables) -> Change
    requires { slot.pipe.0 < f.pipes }
    ensures { result ≡ settled_change f line slot fallen tables }
{
    Change {
        event: finished(slot, line),
        first: fallen.first,
        second: fallen.second,
        slot: moved(slot, f.pipes),
        placed: f.placed,
        stopped: f.stopped,
        tables,
    }
}

// A finish: the counters fall, and at pipe 0 the tables are told.
pub(crate) fn finish(
    f: Figures,
    slot: Slot,
    counters: &[u8; 512],
    mem: &mut [u16],
    line: Line,
) -> Result<Change, Refusal>
    requires { Ready f slot line.0 }
    ensures fits { Fits line.0 result }
    ensures follows { Follows (finished_by memory_source) f counters.now line.0 slot result mem.old mem.new }
{
    let Some(fallen) = both_falls(f, slot, counters, line.0) else {
        return Err(Refusal::Spoiled);
    };
    if slot.pipe.0 != 0 {
        return Ok(settle(f, slot, line, fallen, f.tables));
    }
    let tables = releasing::release(mem, f.tables, slot.token.0)?;
    Ok(settle(f, slot, line, fallen, tables))
}

// What a finish would answer.
pub(crate) fn would_finish(
    f: Figures,
    slot: Slot,
    counters: &[u8; 512],
    mem: &[u16],
    line: Line,
) -> Result<Event, Refusal>
    requires { Ready f slot line.0 }
    ensures { AnswersAs (finished_by memory_source) f counters.now line.0 slot result mem.now }
{
    let Some(_fallen) = both_falls(f, slot, counters, line.0) else {
        return Err(Refusal::Spoiled);
    };
    if slot.pipe.0 == 0 && !releasing::would_release(mem, f.tables, slot.token.0) {
        return Err(Refusal::Spoiled);
    }
    Ok(finished(slot, line))
}
