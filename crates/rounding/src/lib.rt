// The rounding paper (02, 2.2): the rounding of a run, published sums, and what is lent for them.
#![tactic(auto)]

mod base;
mod lending;
mod opening;
mod range;
mod run;
mod settling;
mod sums;

pub use lending::{CELL_MOST, lent_fits};
pub use opening::open;
pub use range::in_range;
pub use run::{Run, without_rounding};
pub use settling::{settle, stays};
pub use sums::SUM_MOST;
use vocabulary::Pipe;

// The rounding of a run: its pipe, its base, and T. All three are 0 in a run without rounding. (The base is a number, and no Option of a Base:
// a run that is handed back may hold any number, and then gets 14 by `rounding_sound`.)
#[derive(Clone, Copy)]
pub struct Rounding {
    pub pipe: Pipe,
    pub base: u16,
    pub sum: u32,
}
