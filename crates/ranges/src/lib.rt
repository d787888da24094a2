// A state looked over, as each choice does first: whether every number of it is within its range.
#![tactic(auto)]

mod counters;
mod flags;
mod joint;
mod rows;
mod slots;

ghost use Rattle.std.specs.Prelude.{◌≡◌, List, ℕ, ◌<◌};
ghost use Rattle.ranges.specs.RangeParts.{figures_sound};
ghost use Rattle.ranges.specs.Surveys.{rows_sound, rest_sound, near as near_of, survey_of};

use state::{Figures, MOST_LINES, MOST_PIPES, MOST_TOKENS, MOST_WORKERS, SLOTS};
use vocabulary::{Slot, Slots};

// What a look over a sound state tells: whether the chosen worker runs a line, and what the chosen line does.
#[derive(Clone, Copy)]
pub struct Survey {
    pub busy: bool,
    pub slot: Slot,
}

// The single numbers: P, L, N, W and how many tokens have a place.
#[tactic(auto, unfolding(crate::specs::RangeParts::figures_sound, rules::specs::Lists::within))]
fn numbers_sound(f: Figures) -> bool
    ensures { result ≡ figures_sound f }
{
    1 <= f.pipes
        && f.pipes <= MOST_PIPES
        && 1 <= f.lines
        && f.lines <= MOST_LINES
        && f.tables.tokens <= MOST_TOKENS
        && 1 <= f.workers
        && f.workers <= MOST_WORKERS
        && f.placed <= f.tables.tokens
}

// The counters and the flags. (Numbers and references alone: a program that has two calls of it makes real calls, and copies nothing
// for them.) The flags come after the counters: the first one, known before, would have the counters of pipe 0 compared apart from
// their row.
#[tactic(auto, unfolding(crate::specs::Surveys::rows_sound))]
pub fn rows_sound<'a>(
    counters: &'a [u8; 512],
    serial: &'a [bool; 16],
    pipes: u16,
    lines: u16,
) -> bool
    ensures { result ≡ rows_sound pipes lines serial.now counters.now }
{
    pipes <= MOST_PIPES
        && lines <= MOST_LINES
        && counters::counters_sound(counters, serial, usize::from(pipes), usize::from(lines))
        && flags::flags_sound(serial, usize::from(pipes))
}

// All but the slots, once the counters and flags are known.
#[tactic(auto, using(crate::proofs::in_range::RangeLaws::rows_fail, crate::proofs::in_range::RangeLaws::figures_fail, crate::proofs::in_range::RangeLaws::tables_left))]
pub fn rest_sound(rows: bool, f: Figures, mem: &[u16]) -> bool
    ensures { (counters : List ℕ) → rows ≡ rows_sound f.pipes f.lines f.serial counters → result ≡ rest_sound f counters mem.now }
{
    rows && numbers_sound(f) && tables::sound(mem, f.tables)
}

// A line that has a slot: the given one, or 0.
#[tactic(auto, unfolding(crate::specs::Surveys::near))]
fn near(line: u16) -> usize
    ensures same { result ≡ near_of line }
    ensures small { result < 32 }
{
    let line = usize::from(line);
    if line < SLOTS { line } else { 0 }
}

// The look over the slots, once the rest is known; nothing is told of a state that is not sound.
pub fn look_over(rest: bool, f: Figures, slots: Slots, worker: u16, line: u16) -> Option<Survey>
    ensures { (counters mem : List ℕ) → rest ≡ rest_sound f counters mem → result ≡ survey_of f counters slots mem worker line }
{
    if !rest || f.pipes < 1 {
        return None;
    }
    let found = slots::walk(slots, f.lines, f.pipes, f.tables.tokens, f.workers, worker);
    if !found.sound {
        return None;
    }
    Some(Survey {
        busy: found.busy,
        slot: slots::slot_at(&slots, near(line)),
    })
}
