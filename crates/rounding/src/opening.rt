// An opening's checks for rounding, which come after 9.
ghost use Rattle.std.specs.Prelude.{◌≡◌};
ghost use Rattle.rounding.specs.Openings.{open_of};

use crate::base::Base;
use crate::{Rounding, lending, range};
use vocabulary::{Pipe, Refusal};

// Opens the rounding of a plan with these pipes and tokens, and clears the figures; a refused opening changes nothing. It is refused with 16
// where the pipe is absent or parallel, 17 where the base is not 3 or 5, 18 where cells or figures are not N in number, or a cell is too large.
#[tactic(auto, using(crate::proofs::laws::Openings::too_many, crate::proofs::laws::Openings::no_pipe, crate::proofs::laws::Openings::no_base, crate::proofs::laws::Openings::unfit, crate::proofs::laws::Openings::opens), unfolding(rules::specs::Rounding::lent_fits))]
pub fn open(
    pipe: Pipe,
    base: u16,
    pipes: u16,
    serial: &[bool; 16],
    tokens: u16,
    cells: &[u32],
    figures: &mut [u32],
) -> Result<Rounding, Refusal>
    ensures answer { result ≡ (open_of pipe.0 base pipes serial.now tokens cells.now figures.old).0 }
    ensures left { figures.new ≡ (open_of pipe.0 base pipes serial.now tokens cells.now figures.old).1 }
{
    if range::MOST_PIPES < pipes || !range::is_rounding_pipe(pipes, serial, pipe.0) {
        return Err(Refusal::RoundingPipe);
    }
    Base::try_from(base)?;
    if !lending::lent_fits(usize::from(tokens), cells, figures.len()) {
        return Err(Refusal::Lent);
    }
    figures.fill(0);
    Ok(Rounding { pipe, base, sum: 0 })
}
