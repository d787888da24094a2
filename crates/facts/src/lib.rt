// What the tables in lent memory say of one token.
#![tactic(auto)]

mod tokens;

ghost use Rattle.std.specs.Prelude.{◌≡◌, ◌≤◌, ◌↔◌, IsOk, IfOk, length};
ghost use Rattle.tables.specs.Layout.{lent, facts_of};
ghost use Rattle.tables.specs.Calls.{safe_new_hold, safe_left_hold};

use tables::{DEFERRED, LENT, Spoiled, TOKENS};
use tokens::{Facts, held_by, is_due, is_left};

// The facts of the tokens, where enough memory is lent.
#[tactic(auto, using(tables::proofs::memory::Cells::facts_length))]
fn facts(mem: &[u16]) -> Result<&Facts, Spoiled>
    ensures enough { IsOk result ↔ (lent ≤ length mem.now) }
    ensures facts { IfOk result (λ facts. facts.now ≡ facts_of mem.now) }
{
    if mem.len() < LENT {
        return Err(Spoiled);
    }
    Ok(<&Facts>::try_from(&mem[..DEFERRED]).unwrap())
}

// What holds a new token, at this Count: the last of its numbers that is due.
#[tactic(auto, unfolding(tables::specs::Calls::safe_new_hold, tables::specs::Facts::new_hold))]
pub fn new_hold(mem: &[u16], count: u16, token: u16) -> Result<Option<u16>, Spoiled>
    ensures { result ≡ safe_new_hold mem.now count token }
{
    let facts = facts(mem)?;
    if TOKENS <= token {
        return Err(Spoiled);
    }
    held_by(facts, token, |number| is_due(facts, count, token, number))
}

// What still holds a deferred token, of N, once the token `past` has finished: the last of its numbers that is left.
#[tactic(auto, unfolding(tables::specs::Calls::safe_left_hold, tables::specs::Facts::left_hold))]
pub fn left_hold(mem: &[u16], tokens: u16, past: u16, token: u16) -> Result<Option<u16>, Spoiled>
    ensures { result ≡ safe_left_hold mem.now tokens past token }
{
    let facts = facts(mem)?;
    if TOKENS < tokens || tokens <= token {
        return Err(Spoiled);
    }
    held_by(facts, token, |number| is_left(facts, past, number))
}
