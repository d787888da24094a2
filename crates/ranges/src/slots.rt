// Whether the lines' slots are within their ranges, and whether a worker runs a line. It is asked at every choice: so one walk finds
// both, with no branch and no way out, a row for each kind of number.
ghost use Rattle.std.specs.Prelude.{◌≡◌, true, false, [], ◌∷◌, ◌<◌, ◌≤◌, eqb, ltb};
ghost use Rattle.rules.specs.Lists.{if, must, all};
ghost use Rattle.rules.specs.RunState.{slot_at};
ghost use Rattle.rules.specs.Choices.{run_by};
ghost use Rattle.rules.specs.Ranges.{is_idle, is_loaded, worker_sound};
ghost use Rattle.ranges.specs.RangeParts.{found_of};

use crate::joint;
use state::SLOTS;
use vocabulary::{Slot, Slots};

// What a walk over the slots finds: whether all are within their ranges, and whether the worker runs a line. (Two tests that are found
// together: neither says whether the other means anything.)
#[derive(Clone, Copy)]
pub struct Found {
    pub sound: bool,
    pub busy: bool,
}

// What a line does: its numbers, read off the rows.
#[tactic(auto, unfolding(rules::specs::RunState::slot_at))]
pub(crate) fn slot_at(slots: &Slots, l: usize) -> Slot
    requires { l < 32 }
    ensures { result ≡ slot_at slots.now l }
{
    Slot {
        pipe: slots.at[l],
        running: slots.running[l],
        token: slots.token[l],
        place: slots.place[l],
        worker: slots.worker[l],
    }
}

// What a line's token and place must be below: N, or for a line that the plan does not have nothing.
fn bound(used: bool, tokens: u16) -> u16
    ensures { result ≡ if used tokens 0 }
{
    if used { tokens } else { 0 }
}

// What a number of a line must be below: its bound where the line holds one, else 1, since 0 stands for none.
fn limit(holds: bool, bound: u16) -> u16
    ensures { result ≡ if holds bound 1 }
{
    if holds { bound } else { 1 }
}

// A token or place of a line that runs or waits past pipe 0, or a worker of a line that runs; any other line has none. (One
// comparison with a chosen limit, not a choice of two comparisons: the loop takes fewer instructions.)
fn held_sound(holds: bool, held: u16, bound: u16) -> bool
    ensures { result ≡ if holds (ltb held bound) (eqb held 0) }
{
    held < limit(holds, bound)
}

// The pipe, token and place of a line that the plan has, or has not.
fn load_sound(s: Slot, used: bool, pipes: u16, tokens: u16) -> bool
    requires { 1 ≤ pipes }
    ensures { result ≡ if (is_idle s) true (all (used ∷ is_loaded pipes tokens s ∷ [])) }
{
    let loaded = joint::either(s.running, 0 < s.pipe.0);
    let held = s.token.0.max(s.place.0);
    let fits = held_sound(loaded, held, bound(used, tokens));
    joint::both(s.pipe.0 < pipes, fits)
}

// Its slot: the worker too.
fn slot_sound(s: Slot, used: bool, pipes: u16, tokens: u16, workers: u16) -> bool
    requires { 1 ≤ pipes }
    ensures { result ≡ must (worker_sound workers s) false (if (is_idle s) true (all (used ∷ is_loaded pipes tokens s ∷ []))) }
{
    let by = held_sound(s.running, s.worker.0, workers);
    joint::both(by, load_sound(s, used, pipes, tokens))
}

// Whether a worker runs the line of a slot.
fn run_by(s: Slot, worker: u16) -> bool
    ensures { result ≡ run_by worker s }
{
    joint::both(s.running, s.worker.0 == worker)
}

// The walk. (A line's number is compared as one of 16 bits: such are compared eight at a time, an index is not.)
pub(crate) fn walk(
    slots: Slots,
    lines: u16,
    pipes: u16,
    tokens: u16,
    workers: u16,
    worker: u16,
) -> Found
    requires { 1 ≤ pipes }
    ensures { result ≡ found_of slots pipes lines tokens workers worker }
{
    let mut sound = true;
    let mut busy = false;
    for l in 0..SLOTS {
        let slot = slot_at(&slots, l);
        let used = (l as u16) < lines;
        sound = joint::both(slot_sound(slot, used, pipes, tokens, workers), sound);
        busy = joint::either(run_by(slot, worker), busy);
    }
    Found { sound, busy }
}
