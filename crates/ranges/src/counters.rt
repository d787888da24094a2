// Whether the join counters are within their ranges. It is asked at every choice: so the counters are lent and not copied, and
// the highest of all lines at each pipe are found first, a row of 16 at a time and with no way out, which takes a few instructions
// a row; they alone are compared with the most that a counter may be.
ghost use Rattle.std.specs.Prelude.{◌≡◌, ◌<◌, ◌≤◌};
ghost use Rattle.rules.specs.Lists.{every, table};
ghost use Rattle.rules.specs.Ranges.{most_at, counter_sound};
ghost use Rattle.ranges.specs.RangeParts.{raised_row, highest_row};

use crate::rows;
use state::{COUNTERS_OF_LINE, FLAGS, SLOTS};
use vocabulary::PipeKind;

// The most that the counter of a line of the plan may be at each pipe: no line differs from the first.
fn most_row(serial: &[bool; 16], pipes: usize) -> [u8; 16]
    requires { pipes ≤ 16 }
    ensures { result ≡ table 16 (most_at pipes 1 serial.now 0) }
{
    let known = rows::pipe_row(pipes);
    let mut most = [0; FLAGS];
    for p in 0..FLAGS {
        most[p] = known[p].min(PipeKind::from_flag(serial[p]).full());
    }
    most
}

// A row, and the counters of one line more: the higher one at each pipe.
fn raised(row: [u8; 16], counters: &[u8; 512], l: usize) -> [u8; 16]
    requires { l < 32 }
    ensures { result ≡ raised_row counters.now row l }
{
    let mut next = [0; FLAGS];
    for p in 0..FLAGS {
        next[p] = row[p].max(counters[COUNTERS_OF_LINE * l + p]);
    }
    next
}

// The highest counters of some lines, one at each pipe.
fn highest_row(counters: &[u8; 512], from: usize, to: usize) -> [u8; 16]
    requires { (from ≤ to) × (to ≤ 32) }
    ensures { result ≡ highest_row counters.now from to }
{
    let mut row = [0; FLAGS];
    for l in from..to {
        let next = raised(row, counters, l);
        row = next;
    }
    row
}

// All counters: "unused ones are 0".
pub(crate) fn counters_sound<'a>(
    counters: &'a [u8; 512],
    serial: &'a [bool; 16],
    pipes: usize,
    lines: usize,
) -> bool
    requires { (pipes ≤ 16) × (lines ≤ 32) }
    ensures { result ≡ every 512 (counter_sound pipes lines serial.now counters.now) }
{
    let used = highest_row(counters, 0, lines);
    let unused = highest_row(counters, lines, SLOTS);
    rows::row_within(used, most_row(serial, pipes)) && rows::row_within(unused, [0; FLAGS])
}
