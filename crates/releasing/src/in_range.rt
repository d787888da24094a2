// The passes of a token's finish at pipe 0, on tables whose numbers are within their ranges.
// The passes begin at the first cell that watches the token; those that write know how many are left, so that there is a next cell as long as one is.
ghost use Rattle.std.specs.Prelude.{◌≡◌, true, false, ◌+◌, ◌-◌, ◌<◌, ◌≤◌, length, replicate};
ghost use Rattle.std.proofs.lemmas.List.Edits.{sets};
ghost use Rattle.std.proofs.Math.Seq.{slice};
ghost use Rattle.rules.specs.Lists.{keep, Below};
ghost use Rattle.tables.specs.declared.Tables.{Tables};
ghost use Rattle.tables.specs.Layout.{deferred_at, watches_at, ready_at, lent, most_tokens, ready_mark, facts_of};
ghost use Rattle.tables.specs.Facts.{left_hold};
ghost use Rattle.tables.specs.State.{InRange, marks};
ghost use Rattle.tables.specs.Releasing.{is_held, sifted_from, tally_of, Unwatched, renewed_from, closed_by, moved_by, release_of, released_of, released_memory};

use crate::watching;
use facts::left_hold;
use tables::{
    DEFERRED, FINISHED_MARK, READY, READY_MARK, STANDINGS, Spoiled, TOKENS, Tables, Tally, WATCHES,
};

// Of the tokens that watch this one: how many no other number holds, and how many another does. The first of them is in the cell `watcher`.
pub(crate) fn tally(
    mem: &[u16],
    tokens: u16,
    past: u16,
    watcher: usize,
    held: usize,
) -> Result<Tally, Spoiled>
    requires lent_in_bounds { (lent ≤ length mem.now) × (tokens ≤ most_tokens) }
    requires watcher_le_held { (watcher ≤ held) × (held ≤ most_tokens) }
    requires unwatched { Unwatched mem.now past watcher }
    ensures { result ≡ tally_of (left_hold (facts_of mem.now) tokens past) (sifted_from true mem.now deferred_at past 0 held) }
{
    let mut tally = Tally { free: 0, held: 0 };
    let mut from = watcher;
    while let Some(cell) = watching::next(mem, past, from, held) {
        match left_hold(mem, tokens, past, mem[DEFERRED + cell])? {
            None => tally.free += 1,
            Some(_) => tally.held += 1,
        }
        from = cell + 1;
    }
    Ok(tally)
}

// Gives each token that watches this one another number to watch, if another holds it; `kept` of them do have one.
fn renew(mem: &mut [u16], tokens: u16, past: u16, watcher: usize, held: usize, kept: u16)
    requires lent_in_bounds { (lent ≤ length mem.old) × (tokens ≤ most_tokens) }
    requires watcher_le_held { (watcher ≤ held) × (held ≤ most_tokens) }
    requires unwatched { Unwatched mem.old past watcher }
    requires kept_value { kept ≡ length (keep (λ t. is_held (left_hold (facts_of mem.old) tokens past t)) (sifted_from true mem.old deferred_at past 0 held)) }
    ensures { mem.new ≡ sets mem.old watches_at (renewed_from mem.old tokens past 0 held) }
{
    let mut from = watcher;
    let mut left = kept;
    // Not until no cell is found, as in `tally`: that would look through all watches behind the last.
    while 0 < left {
        let cell = watching::next(mem, past, from, held).unwrap();
        let token = mem[DEFERRED + cell];
        if let Some(number) = left_hold(mem, tokens, past, token).unwrap_or(None) {
            mem[WATCHES + cell] = number;
            left -= 1;
        }
        from = cell + 1;
    }
}

// Stores the tokens that watch this one in the cells from `from` up to `to`, behind the ready queue.
fn queue_woken(mem: &mut [u16], past: u16, watcher: usize, held: usize, from: usize, to: usize)
    requires lent_in_bounds { (lent ≤ length mem.old) × ((watcher ≤ held) × (held ≤ most_tokens)) }
    requires unwatched { Unwatched mem.old past watcher }
    requires ready_at_le_from { (ready_at ≤ from) × ((to ≤ lent) × (to ≡ from + length (sifted_from true mem.old deferred_at past 0 held))) }
    ensures { mem.new ≡ sets mem.old from (sifted_from true mem.old deferred_at past 0 held) }
{
    let mut cell = watcher;
    for at in from..to {
        let next = watching::next(mem, past, cell, held).unwrap();
        mem[at] = mem[DEFERRED + next];
        cell = next + 1;
    }
}

// Closes up those numbers of a part in step with the watches whose watches are not this one. The watches of `n` others are.
fn close_part(mem: &mut [u16], part: usize, past: u16, watcher: usize, held: usize, n: u16)
    requires lent_in_bounds { (lent ≤ length mem.old) × ((watcher ≤ held) × (held ≤ most_tokens)) }
    requires part_le_watches_at { (part ≤ watches_at) × (n ≡ length (sifted_from true mem.old part past 0 held)) }
    requires unwatched { Unwatched mem.old past watcher }
    ensures { mem.new ≡ sets mem.old part (sifted_from false mem.old part past 0 held) }
{
    let mut at = part + watcher;
    let mut cell = watcher;
    for _ in 0..n {
        let next = watching::next(mem, past, cell, held).unwrap();
        mem.copy_within(part + cell..part + next, at);
        at += next - cell;
        cell = next + 1;
    }
    mem.copy_within(part + cell..part + held, at);
}

// Marks the tokens in the cells from `from` up to `to` as ready.
fn mark_ready(mem: &mut [u16], from: usize, to: usize)
    requires deferred_at_le_from { (deferred_at ≤ from) × ((from ≤ to) × (to ≤ length mem.old)) }
    requires below { Below most_tokens (slice from to mem.old) }
    ensures { mem.new ≡ marks mem.old ready_mark (slice from to mem.old) }
{
    for cell in from..to {
        mem[STANDINGS + usize::from(mem[cell])] = READY_MARK;
    }
}

// Closes up the tokens that do not watch this one, with their watches; `n` others do.
fn close_up(mem: &mut [u16], past: u16, watcher: usize, held: usize, n: u16)
    requires lent_in_bounds { (lent ≤ length mem.old) × ((watcher ≤ held) × (held ≤ most_tokens)) }
    requires n_value { n ≡ length (sifted_from true mem.old deferred_at past 0 held) }
    requires unwatched { Unwatched mem.old past watcher }
    ensures { mem.new ≡ closed_by mem.old held (sifted_from false mem.old deferred_at past 0 held) (sifted_from false mem.old watches_at past 0 held) }
{
    close_part(mem, DEFERRED, past, watcher, held, n);
    close_part(mem, WATCHES, past, watcher, held, n);
    let staying = held - usize::from(n);
    mem[DEFERRED + staying..DEFERRED + held].fill(0);
    mem[WATCHES + staying..WATCHES + held].fill(0);
}

// Moves the tokens that still watch this one, `n` of them, to the ready queue, which has room for them.
fn move_woken(mem: &mut [u16], t: Tables, past: u16, watcher: usize, n: u16) -> Tables
    requires in_range { InRange t }
    requires lent_in_bounds { (lent ≤ length mem.old) × (past < t.tokens) }
    requires watcher_le_held { (watcher ≤ t.held) × Unwatched mem.old past watcher }
    requires n_value { (n ≡ length (sifted_from true mem.old deferred_at past 0 t.held)) × (t.end + n ≤ most_tokens) }
    requires below { Below most_tokens (sifted_from true mem.old deferred_at past 0 t.held) }
    ensures answer { ◌≡◌ {A = Tables} result (record { tokens = t.tokens; count = t.count; first = t.first; end = t.end + n; held = length (sifted_from false mem.old deferred_at past 0 t.held) }) }
    ensures memory { mem.new ≡ moved_by mem.old t.end t.held past (sifted_from true mem.old deferred_at past 0 t.held) (sifted_from false mem.old deferred_at past 0 t.held) (sifted_from false mem.old watches_at past 0 t.held) }
{
    let held = usize::from(t.held);
    let from = READY + usize::from(t.end);
    let to = from + usize::from(n);
    queue_woken(mem, past, watcher, held, from, to);
    close_up(mem, past, watcher, held, n);
    mark_ready(mem, from, to);
    mem[STANDINGS + usize::from(past)] = FINISHED_MARK;
    Tables {
        end: t.end + n,
        held: t.held - n,
        ..t
    }
}

// A token that others watch finishes pipe 0. The first of them is in the cell `watcher`.
pub(crate) fn release_watched(
    mem: &mut [u16],
    t: Tables,
    past: u16,
    watcher: usize,
) -> Result<Tables, Spoiled>
    requires in_range { InRange t }
    requires lent_in_bounds { (lent ≤ length mem.old) × (past < t.tokens) }
    requires watcher_le_held { (watcher ≤ t.held) × Unwatched mem.old past watcher }
    ensures answer { result ≡ released_of (release_of t past mem.old) }
    ensures memory { mem.new ≡ released_memory mem.old (release_of t past mem.old) }
{
    let held = usize::from(t.held);
    let watchers = tally(mem, t.tokens, past, watcher, held)?;
    if TOKENS - t.end < watchers.free {
        return Err(Spoiled);
    }
    renew(mem, t.tokens, past, watcher, held, watchers.held);
    // Where no token wakes nothing moves.
    if watchers.free == 0 {
        mem[STANDINGS + usize::from(past)] = FINISHED_MARK;
        return Ok(t);
    }
    Ok(move_woken(mem, t, past, watcher, watchers.free))
}
