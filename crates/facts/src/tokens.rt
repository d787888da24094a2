// What the facts of the tokens, a part of the memory, say of one token.
ghost use Rattle.std.specs.Prelude.{◌≡◌, ℕ, Bool, ◌<◌};
ghost use Rattle.tables.specs.Layout.{most_tokens};
ghost use Rattle.tables.specs.Facts.{standing_of, numbers_at, numbers_of, due_of, left_of, last_of, hold_of};
ghost use Rattle.facts.specs.{Answers};

use std::ops::Range;
use tables::{
    DEFERRED, DEFERRED_MARK, FINISHED_MARK, NO_MARK, POSITIONS, RECORD_NUMBERS, STANDINGS, Spoiled,
    TOKENS,
};

// The facts of the tokens: the records, the positions and the standings.
pub(crate) type Facts = [u16; DEFERRED];

// A token's standing; 0 for a number that no token can have.
#[tactic(auto, using(tables::proofs::memory::FactsLaws::standing_none), unfolding(tables::specs::Facts::standing_of))]
fn standing(facts: &Facts, token: u16) -> u16
    ensures { result ≡ standing_of facts.now token }
{
    if token < TOKENS {
        facts[STANDINGS + usize::from(token)]
    } else {
        NO_MARK
    }
}

// Where the numbers of the record at a place stand: the place is 1 + the record's position, or 0 for no record.
#[tactic(auto, unfolding(tables::specs::Facts::numbers_at))]
fn numbers_at(facts: &Facts, place: usize) -> Result<Range<usize>, Spoiled>
    ensures { result ≡ numbers_at facts.now place }
{
    if place == 0 {
        return Ok(0..0);
    }
    if POSITIONS < place {
        return Err(Spoiled);
    }
    let count = usize::from(facts[place - 1]);
    let end = place + count;
    if POSITIONS < end || !(1..=RECORD_NUMBERS).contains(&count) {
        return Err(Spoiled);
    }
    Ok(place..end)
}

// Where a token's numbers stand.
#[tactic(auto, unfolding(tables::specs::Facts::numbers_of))]
fn numbers(facts: &Facts, token: u16) -> Result<Range<usize>, Spoiled>
    requires { token < most_tokens }
    ensures { result ≡ numbers_of facts.now token }
{
    let place = facts[POSITIONS + usize::from(token)];
    numbers_at(facts, usize::from(place))
}

// Whether a number is due for a token newly taken at this Count.
#[tactic(auto, unfolding(tables::specs::Facts::due_of))]
pub(crate) fn is_due(facts: &Facts, count: u16, token: u16, number: u16) -> bool
    ensures { result ≡ due_of facts.now count token number }
{
    standing(facts, number) == DEFERRED_MARK || (count <= number && number != token)
}

// Whether a number is another than this token, and has not finished pipe 0.
#[tactic(auto, unfolding(tables::specs::Facts::left_of))]
pub(crate) fn is_left(facts: &Facts, past: u16, number: u16) -> bool
    ensures { result ≡ left_of facts.now past number }
{
    standing(facts, number) != FINISHED_MARK && number != past
}

// The last of some numbers that passes a test.
fn last<F: Fn(u16) -> bool>(numbers: &[u16], passes: F) -> Option<u16>
    requires { F.IsAlwaysCallable passes }
    ensures { (test : ℕ → Bool) → Answers (F.post passes) test → result ≡ last_of test numbers.now }
{
    numbers.iter().rev().copied().find(|&number| passes(number))
}

// What holds a token: the last of its numbers that passes a test.
#[tactic(auto, using(tables::proofs::memory::FactsLaws::numbers_within), unfolding(tables::specs::Facts::hold_of, tables::specs::Facts::hold_as))]
pub(crate) fn held_by<F: Fn(u16) -> bool>(
    facts: &Facts,
    token: u16,
    passes: F,
) -> Result<Option<u16>, Spoiled>
    requires token_lt_most_tokens { token < most_tokens }
    requires callable { F.IsAlwaysCallable passes }
    ensures { (test : ℕ → Bool) → Answers (F.post passes) test → result ≡ hold_of facts.now test token }
{
    let part = numbers(facts, token)?;
    Ok(last(&facts[part], passes))
}
