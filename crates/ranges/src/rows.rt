// Rows of 16 numbers, one for each pipe.
ghost use Rattle.std.specs.Prelude.{◌≡◌, ◌≤◌};
ghost use Rattle.ranges.specs.RangeParts.{pipe_row, row_within};

use crate::joint;
use state::FLAGS;

// 2 for a pipe, and 0 for what is none: the row of a plan with P pipes begins P places before the middle.
const PIPES_THEN_NONE: [u8; 32] = [
    2, 2, 2, 2, 2, 2, 2, 2, 2, 2, 2, 2, 2, 2, 2, 2, 0, 0, 0, 0, 0, 0, 0, 0, 0, 0, 0, 0, 0, 0, 0, 0,
];

// 2 for each pipe of the plan, and 0 for the others. (Read off one row and not compared pipe by pipe, so that it takes a few
// instructions.)
pub(crate) fn pipe_row(pipes: usize) -> [u8; 16]
    requires { pipes ≤ 16 }
    ensures { result ≡ pipe_row pipes }
{
    let from = FLAGS - pipes;
    let mut row = [0; FLAGS];
    row.copy_from_slice(&PIPES_THEN_NONE[from..from + FLAGS]);
    row
}

// Whether no number of a row is above that of another.
pub(crate) fn row_within(row: [u8; 16], most: [u8; 16]) -> bool
    ensures { result ≡ row_within row most }
{
    let mut ok = true;
    for p in 0..FLAGS {
        ok = joint::both(row[p] <= most[p], ok);
    }
    ok
}
