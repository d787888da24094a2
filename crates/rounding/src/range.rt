// Whether the three numbers of a rounding are within their ranges.
ghost use Rattle.std.specs.Prelude.{◌≡◌, ◌≤◌};
ghost use Rattle.rules.specs.Rounding.{is_base, is_rounding_pipe};
ghost use Rattle.rounding.specs.Roundings.{rounding_of, rounding_fits};

use crate::Rounding;
use crate::base::Base;
use crate::sums::SUM_MOST;
use vocabulary::Pipe;

// How many pipes a plan may have: each has a flag.
pub(crate) const MOST_PIPES: u16 = 16;

// Whether a number is a base.
#[tactic(auto, using(crate::proofs::laws::Bases::base_test))]
pub(crate) fn is_base(n: u16) -> bool
    ensures { result ≡ is_base n }
{
    Base::try_from(n).is_ok()
}

// Whether a number is that of a serial pipe of the plan.
#[tactic(auto, using(rules::proofs::lists::Tests::tests, rules::proofs::lists::Tests::if_eta), unfolding(rules::specs::Rounding::is_rounding_pipe))]
pub(crate) fn is_rounding_pipe(pipes: u16, serial: &[bool; 16], pipe: u16) -> bool
    requires { pipes ≤ 16 }
    ensures { result ≡ is_rounding_pipe pipes serial.now pipe }
{
    pipe < pipes && serial[usize::from(pipe)]
}

// Whether a rounding is within its ranges, in a plan of at most 16 pipes with these flags.
#[tactic(auto, using(rules::proofs::lists::Tests::tests, crate::proofs::laws::Ranges::pipe_left, crate::proofs::laws::Ranges::sum_tells, crate::proofs::laws::Ranges::no_base, crate::proofs::laws::Ranges::no_pipe, crate::proofs::laws::Ranges::most_tells))]
pub fn in_range(r: Rounding, pipes: u16, serial: &[bool; 16]) -> bool
    ensures { result ≡ rounding_fits pipes serial.now (rounding_of r) }
{
    if MOST_PIPES < pipes {
        return false;
    }
    if r.base == 0 {
        return r.pipe == Pipe(0) && r.sum == 0;
    }
    is_base(r.base) && is_rounding_pipe(pipes, serial, r.pipe.0) && r.sum <= SUM_MOST
}
