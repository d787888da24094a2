// Whether the flags of the pipes are within their ranges.
ghost use Rattle.std.specs.Prelude.{◌≡◌, ◌≤◌};
ghost use Rattle.rules.specs.Lists.{if, every};
ghost use Rattle.ranges.specs.RangeParts.{flag_sound, flag_row};

use crate::rows;
use state::FLAGS;

// A flag as a number of a row of pipes.
fn flag_number(serial: bool) -> u8
    ensures { result ≡ if serial 2 0 }
{
    if serial { 2 } else { 0 }
}

// All flags as numbers.
fn flag_row(serial: &[bool; 16]) -> [u8; 16]
    ensures { result ≡ flag_row serial.now }
{
    let mut row = [0; FLAGS];
    for p in 0..FLAGS {
        row[p] = flag_number(serial[p]);
    }
    row
}

// Pipe 0 is serial, and what is no pipe of the plan is not.
pub(crate) fn flags_sound(serial: &[bool; 16], pipes: usize) -> bool
    requires { pipes ≤ 16 }
    ensures { result ≡ every 16 (flag_sound pipes serial.now) }
{
    rows::row_within(flag_row(serial), rows::pipe_row(pipes)) && serial[0]
}
