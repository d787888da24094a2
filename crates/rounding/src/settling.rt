// What a choice that is accepted without rounding does to T and the figures.
ghost use Rattle.std.specs.Prelude.{◌≡◌, leb, get_or, set};
ghost use Rattle.rules.specs.Answers.{answer_of};
ghost use Rattle.rules.specs.Rounding.{sum_most, sum_after, passing as passing_by};
ghost use Rattle.rounding.specs.Roundings.{rounding_of};
ghost use Rattle.rounding.specs.Settlings.{passer, passer_of, is_known, settled_of, settle_by};

use crate::base::Base;
use crate::sums::SUM_MOST;
use crate::{Rounding, range, sums};
use vocabulary::{Event, Pipe, Refusal, Token};

// The token whose cell passes by an answer, if one does.
#[tactic(auto, using(crate::proofs::laws::Settlings::without, crate::proofs::laws::Settlings::here, crate::proofs::laws::Settlings::elsewhere, crate::proofs::laws::Settlings::by_start, crate::proofs::laws::Settlings::by_stop, crate::proofs::laws::Settlings::by_refusal), unfolding(rules::specs::Answers::answer_of))]
fn who_passes(r: Rounding, answer: Result<Event, Refusal>) -> Option<Token>
    ensures { passer_of result ≡ passing_by (rounding_of r) (answer_of answer) }
{
    match answer {
        Ok(Event::Finished(step)) if r.base != 0 && step.pipe == r.pipe => Some(step.token),
        _ => None,
    }
}

// Whether a base is one, or that of a run without rounding.
#[tactic(auto, using(rules::proofs::lists::Tests::tests), unfolding(crate::specs::Settlings::is_known))]
fn is_known(base: u16) -> bool
    ensures { result ≡ is_known base }
{
    base == 0 || range::is_base(base)
}

// A token's cell; 0 where it has none.
fn cell_of(cells: &[u32], token: Token) -> u32
    ensures { result ≡ get_or cells.now token.0 0 }
{
    cells.get(usize::from(token.0)).copied().unwrap_or(0)
}

// Puts a token's figure, if it has one. (Of a slice that `get_mut` lends from, std says nothing afterwards.)
fn put(figures: &mut [u32], token: Token, figure: u32)
    ensures { figures.new ≡ set figures.old token.0 figure }
{
    let at = usize::from(token.0);
    if at < figures.len() {
        figures[at] = figure;
    }
}

// Whether T stays within its limit when a token finishes a pipe.
#[tactic(auto, using(crate::proofs::laws::Settlings::stays_past, crate::proofs::laws::Settlings::stays_without, crate::proofs::laws::Settlings::stays_elsewhere))]
pub fn stays(r: Rounding, pipe: Pipe, token: Token, cells: &[u32]) -> bool
    ensures { result ≡ leb (sum_after (rounding_of r) cells.now (passer (rounding_of r) pipe.0 token.0)) sum_most }
{
    if SUM_MOST < r.sum {
        return false;
    }
    if r.base == 0 || pipe != r.pipe {
        return true;
    }
    cell_of(cells, token) <= SUM_MOST - r.sum
}

// T and the figures after a choice that is accepted without rounding, with this answer; nothing where T would pass its limit, or a number is
// outside its range.
#[tactic(auto, using(crate::proofs::laws::Settlings::unknown, crate::proofs::laws::Settlings::past, crate::proofs::laws::Settlings::kept, crate::proofs::laws::Settlings::numbered, crate::proofs::laws::Settlings::too_much, crate::proofs::laws::Settlings::passes))]
pub fn settle(
    r: Rounding,
    answer: Result<Event, Refusal>,
    cells: &[u32],
    figures: &mut [u32],
) -> Option<Rounding>
    ensures { settled_of result figures.new ≡
        settle_by (rounding_of r) (answer_of answer) cells.now figures.old }
{
    if !is_known(r.base) || SUM_MOST < r.sum {
        return None;
    }
    let Some(token) = who_passes(r, answer) else {
        return Some(r);
    };
    let base = Base::try_from(r.base).ok()?;
    let passed = sums::pass(base, r.sum, cell_of(cells, token))?;
    put(figures, token, passed.figure);
    Some(Rounding {
        sum: passed.sum,
        ..r
    })
}
