// A run with its rounding: the state that its caller holds.
ghost use Rattle.std.specs.Prelude.{◌≡◌};
ghost use Rattle.rounding.specs.Runs.{without_rounding};

use crate::Rounding;
use state::State;
use vocabulary::Pipe;

// The state of a run, and its rounding beside it.
#[derive(Clone, Copy)]
pub struct Run {
    pub state: State,
    pub rounding: Rounding,
}

// A run without rounding: its pipe, base and T are 0.
pub fn without_rounding(state: State) -> Run
    ensures { result ≡ without_rounding state }
{
    let rounding = Rounding {
        pipe: Pipe(0),
        base: 0,
        sum: 0,
    };
    Run { state, rounding }
}
