// A token's finish at pipe 0, on the tables in lent memory.
#![tactic(auto)]

mod in_range;
mod watching;

ghost use Rattle.std.specs.Prelude.{◌≡◌};
ghost use Rattle.tables.specs.Releasing.{released_of, released_memory, passes};
ghost use Rattle.tables.specs.Calls.{safe_release};

use in_range::{release_watched, tally};
use tables::{FINISHED_MARK, STANDINGS, Spoiled, TOKENS, Tables, sound};

// Whether a token's finish at pipe 0 would pass: no record of a token that watches it is bad, and the queue has room for those that wake.
// Nothing is written.
pub fn would_release(mem: &[u16], t: Tables, past: u16) -> bool
    ensures { result ≡ passes (safe_release past (t, mem.now)) }
{
    if !sound(mem, t) {
        return false;
    }
    let held = usize::from(t.held);
    let room = TOKENS - t.end;
    past < t.tokens && tally(mem, t.tokens, past, 0, held).is_ok_and(|found| found.free <= room)
}

// A token finishes pipe 0: its waiters lose it, and those with none left become ready.
pub fn release(mem: &mut [u16], t: Tables, past: u16) -> Result<Tables, Spoiled>
    ensures answer { result ≡ released_of (safe_release past (t, mem.old)) }
    ensures memory { mem.new ≡ released_memory mem.old (safe_release past (t, mem.old)) }
{
    if !sound(mem, t) {
        return Err(Spoiled);
    }
    if t.tokens <= past {
        return Err(Spoiled);
    }
    let held = usize::from(t.held);
    if let Some(watcher) = watching::next(mem, past, 0, held) {
        return release_watched(mem, t, past, watcher);
    }
    // Most tokens are watched by none: then only the standing changes.
    mem[STANDINGS + usize::from(past)] = FINISHED_MARK;
    Ok(t)
}
