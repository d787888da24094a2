// Whether a run has ended.
ghost use Rattle.std.specs.Prelude.{◌≡◌, ◌*◌, ◌<◌};
ghost use Rattle.rules.specs.Lists.{every};
ghost use Rattle.state.specs.Ending.{is_still, over_of};

use crate::limits::{COUNTERS_OF_LINE, SLOTS};
use vocabulary::Slots;

// Whether a line cannot move, whose counters begin at `row`: its pipe is within the tables, it waits, and its counter is above 0.
fn is_still(slots: &Slots, counters: &[u8; 512], l: usize, row: usize) -> bool
    requires { (l < 32) × (row ≡ 16 * l) }
    ensures { result ≡ is_still counters.now slots.now l }
{
    let pipe = usize::from(slots.at[l].0);
    pipe < COUNTERS_OF_LINE && !slots.running[l] && counters[row + pipe] != 0
}

// Whether no line can move. (The row is counted by hand: the scan goes from each line's row of counters to the next, and multiplies
// nothing, as docs/CLAIMS.md says.)
fn all_still(lines: u16, slots: &Slots, counters: &[u8; 512]) -> bool
    ensures { result ≡ every lines (is_still counters.now slots.now) }
{
    let lines = usize::from(lines);
    if SLOTS < lines {
        return false;
    }
    let mut row: usize = 0;
    for l in 0..lines {
        if !is_still(slots, counters, l, row) {
            return false;
        }
        row += COUNTERS_OF_LINE;
    }
    true
}

// Whether a run has ended: it is marked stopped, and no line can move.
pub fn is_over(stopped: bool, lines: u16, slots: Slots, counters: &[u8; 512]) -> bool
    ensures { result ≡ over_of stopped lines counters.now slots }
{
    stopped && all_still(lines, &slots, counters)
}
