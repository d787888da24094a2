// Published sums. No sum here wraps: a published sum of a 32-bit number is one too, as 3 and 5 divide the largest.
ghost use Rattle.std.specs.Prelude.{true, ◌≡◌, ◌+◌, ◌≤◌};
ghost use Rattle.rules.specs.Rounding.{is_base, published as published_by, rise as rise_by};
ghost use Rattle.rounding.specs.Bases.{base_of};
ghost use Rattle.rounding.specs.Passings.{pass_of};

use crate::base::Base;

// What T may not pass.
pub const SUM_MOST: u32 = 4096000000;

// T and the figure when a cell has passed.
#[derive(Clone, Copy)]
pub struct Passed {
    pub sum: u32,
    pub figure: u32,
}

// The multiple of a base that is nearest to a sum. (A constant divides in less time than a variable does.)
#[tactic(auto, using(crate::proofs::laws::Bases::no_wrap, crate::proofs::laws::Bases::rounds_up, crate::proofs::laws::Bases::rounds_down, rules::proofs::rounding::Sums::is_base_lem))]
fn nearest<const BASE: u32>(sum: u32) -> u32
    requires { is_base BASE ≡ true }
    ensures { result ≡ published_by BASE sum }
{
    let over = sum % BASE;
    if BASE / 2 < over {
        return sum - over + BASE;
    }
    sum - over
}

// The published sum.
#[tactic(auto, unfolding(rules::specs::Rounding::is_base))]
pub(crate) fn published(base: Base, sum: u32) -> u32
    ensures { result ≡ published_by (base_of base) sum }
{
    match base {
        Base::Three => nearest::<3>(sum),
        Base::Five => nearest::<5>(sum),
    }
}

// What a cell publishes: the rise in the published sum.
#[tactic(auto, using(rules::proofs::rounding::Sums::published_rises, crate::proofs::laws::Bases::base_is), unfolding(rules::specs::Rounding::rise))]
fn rise(base: Base, sum: u32, cell: u32) -> u32
    requires { sum + cell ≤ 4294967295 }
    ensures { result ≡ rise_by (base_of base) sum cell }
{
    published(base, sum + cell) - published(base, sum)
}

// A cell passes: T after it and its figure, unless T would pass its limit.
#[tactic(auto, using(rules::proofs::lists::Tests::tests), unfolding(crate::specs::Passings::pass_of))]
pub(crate) fn pass(base: Base, sum: u32, cell: u32) -> Option<Passed>
    ensures { result ≡ pass_of (base_of base) sum cell }
{
    let after = sum.checked_add(cell)?;
    if SUM_MOST < after {
        return None;
    }
    let figure = rise(base, sum, cell);
    Some(Passed { sum: after, figure })
}
