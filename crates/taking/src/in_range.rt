// The parts of a taking, on tables whose numbers are within their ranges.
ghost use Rattle.std.specs.Prelude.{◌≡◌, map, ◌+◌, ◌-◌, ◌<◌, ◌≤◌, length};
ghost use Rattle.std.proofs.lemmas.List.Edits.{sets};
ghost use Rattle.tables.specs.Layout.{deferred_at, watches_at, lent, most_tokens, deferred_mark, facts_of};
ghost use Rattle.tables.specs.State.{InRange, span, marks};
ghost use Rattle.tables.specs.Taking.{find_of, watch_of, deferred_by, oldest_of, take_upto, take_ready, taken_of, taken_memory};

use facts::new_hold;
use tables::{
    DEFERRED, DEFERRED_MARK, NO_MARK, READY, STANDINGS, Spoiled, TOKENS, Tables, Taken, WATCHES,
};

// The first free token from Count on, or N where none is.
pub(crate) fn find(mem: &[u16], tokens: u16, count: u16) -> Result<u16, Spoiled>
    requires lent_in_bounds { lent ≤ length mem.now }
    requires count_le_tokens { (count ≤ tokens) × (tokens ≤ most_tokens) }
    ensures { result ≡ find_of (facts_of mem.now) tokens count }
{
    for token in count..tokens {
        if new_hold(mem, count, token)?.is_none() {
            return Ok(token);
        }
    }
    Ok(tokens)
}

// Enters the tokens from `from` up to `to` in the cells from `at` on.
fn enter(mem: &mut [u16], at: usize, from: u16, to: u16)
    requires { (from ≤ to) × (at + (to - from) ≤ length mem.old) }
    ensures { mem.new ≡ sets mem.old at (span from to) }
{
    for token in from..to {
        mem[at + usize::from(token - from)] = token;
    }
}

// The number by which a new token is held; 0 where nothing holds it or its record is bad.
fn watch(mem: &[u16], count: u16, token: u16) -> u16
    requires { (lent ≤ length mem.now) × (token < most_tokens) }
    ensures { result ≡ watch_of (facts_of mem.now) count token }
{
    new_hold(mem, count, token).unwrap_or(None).unwrap_or(0)
}

// Enters the watches of the tokens from Count up to `to` in the cells from `at` on.
fn enter_watches(mem: &mut [u16], at: usize, count: u16, to: u16)
    requires count_le_to { (count ≤ to) × (to ≤ most_tokens) }
    requires watches_at_le_at { (watches_at ≤ at) × ((at + (to - count) ≤ lent) × (lent ≤ length mem.old)) }
    ensures { mem.new ≡ sets mem.old at (map (watch_of (facts_of mem.old) count) (span count to)) }
{
    for token in count..to {
        mem[at + usize::from(token - count)] = watch(mem, count, token);
    }
}

// Marks the tokens from `from` up to `to` as deferred.
fn mark_deferred(mem: &mut [u16], from: u16, to: u16)
    requires from_le_to { (from ≤ to) × (to ≤ most_tokens) }
    requires deferred_at_in_bounds { deferred_at ≤ length mem.old }
    ensures { mem.new ≡ marks mem.old deferred_mark (span from to) }
{
    mem[STANDINGS + usize::from(from)..STANDINGS + usize::from(to)].fill(DEFERRED_MARK);
}

// Defers the tokens from Count up to `upto`. Their watches go by the standings as they were, so these are changed last.
fn defer(mem: &mut [u16], count: u16, held: u16, upto: u16)
    requires count_le_upto { (count ≤ upto) × (upto ≤ most_tokens) }
    requires count_bound { (held + (upto - count) ≤ most_tokens) × (lent ≤ length mem.old) }
    ensures { mem.new ≡ deferred_by mem.old held (span count upto) (map (watch_of (facts_of mem.old) count) (span count upto)) }
{
    enter(mem, DEFERRED + usize::from(held), count, upto);
    enter_watches(mem, WATCHES + usize::from(held), count, upto);
    mark_deferred(mem, count, upto);
}

// Takes the first free token, after deferring those before it.
pub(crate) fn take_upto(mem: &mut [u16], t: Tables, upto: u16) -> Result<Taken, Spoiled>
    requires in_range { InRange t }
    requires count_le_upto { (t.count ≤ upto) × (upto ≤ t.tokens) }
    requires lent_in_bounds { lent ≤ length mem.old }
    ensures answer { result ≡ taken_of (take_upto t mem.old (Ok upto)) }
    ensures memory { mem.new ≡ taken_memory mem.old (take_upto t mem.old (Ok upto)) }
{
    let held = t.held + (upto - t.count);
    if TOKENS < held {
        return Err(Spoiled);
    }
    defer(mem, t.count, t.held, upto);
    if upto < t.tokens {
        return Ok(Taken {
            token: Some(upto),
            tables: Tables {
                count: upto + 1,
                held,
                ..t
            },
        });
    }
    Ok(Taken {
        token: None,
        tables: Tables {
            count: upto,
            held,
            ..t
        },
    })
}

// Takes the oldest ready token.
pub(crate) fn take_ready(mem: &mut [u16], t: Tables) -> Result<Taken, Spoiled>
    requires in_range { InRange t }
    requires first_lt_end { t.first < t.end }
    requires lent_in_bounds { lent ≤ length mem.old }
    ensures answer { result ≡ taken_of (take_ready t mem.old (oldest_of t mem.old)) }
    ensures memory { mem.new ≡ taken_memory mem.old (take_ready t mem.old (oldest_of t mem.old)) }
{
    let token = mem[READY + usize::from(t.first)];
    if t.tokens <= token {
        return Err(Spoiled);
    }
    mem[STANDINGS + usize::from(token)] = NO_MARK;
    Ok(Taken {
        token: Some(token),
        tables: Tables {
            first: t.first + 1,
            ..t
        },
    })
}
