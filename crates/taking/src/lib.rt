// Taking a token from the tables in lent memory.
#![tactic(auto)]

mod in_range;

ghost use Rattle.std.specs.Prelude.{◌≡◌};
ghost use Rattle.tables.specs.Taking.{taken_of, taken_memory, offered_of};
ghost use Rattle.tables.specs.Calls.{safe_take};

use in_range::{find, take_ready, take_upto};
use tables::{READY, Spoiled, TOKENS, Tables, Taken, sound};

// What taking would give; nothing is written.
pub fn would_take(mem: &[u16], t: Tables) -> Result<Option<u16>, Spoiled>
    ensures { result ≡ offered_of (safe_take (t, mem.now)) }
{
    if !sound(mem, t) {
        return Err(Spoiled);
    }
    if t.first < t.end {
        let token = mem[READY + usize::from(t.first)];
        return if token < t.tokens {
            Ok(Some(token))
        } else {
            Err(Spoiled)
        };
    }
    let upto = find(mem, t.tokens, t.count)?;
    if TOKENS < t.held + (upto - t.count) {
        return Err(Spoiled);
    }
    Ok((upto < t.tokens).then_some(upto))
}

// Takes a token: the oldest ready one, else a new one.
pub fn take(mem: &mut [u16], t: Tables) -> Result<Taken, Spoiled>
    ensures answer { result ≡ taken_of (safe_take (t, mem.old)) }
    ensures memory { mem.new ≡ taken_memory mem.old (safe_take (t, mem.old)) }
{
    if !sound(mem, t) {
        return Err(Spoiled);
    }
    if t.first < t.end {
        return take_ready(mem, t);
    }
    let upto = find(mem, t.tokens, t.count)?;
    take_upto(mem, t, upto)
}
