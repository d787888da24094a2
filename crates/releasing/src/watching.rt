// The cells of the deferred table that watch a number. A finish looks through all watches, so they are compared a block at a time,
// all of the block and with no way out: this becomes vector code. Only in a block that has the number single cells are looked at.
ghost use Rattle.std.specs.Prelude.{◌≡◌, ◌+◌, ◌<◌, ◌≤◌, ◌==◌, length, position, IfSome, unwrap_or};
ghost use Rattle.std.proofs.Math.Seq.{slice};
ghost use Rattle.rules.specs.Lists.{has};
ghost use Rattle.tables.specs.Layout.{lent, most_tokens};
ghost use Rattle.tables.specs.Releasing.{next_from};

use tables::WATCHES;

// How many cells are compared together.
const BLOCK: usize = 64;

// Whether a number is in the block of cells from `at` on.
fn in_block(mem: &[u16], at: usize, number: u16) -> bool
    requires { (lent ≤ length mem.now) × (at + 64 ≤ lent) }
    ensures { result ≡ has (slice at (at + 64) mem.now) number }
{
    let mut found = false;
    for watch in &mem[at..at + BLOCK] {
        found |= *watch == number;
    }
    found
}

// The first place of some watches that has a number.
fn place_of(watches: &[u16], number: u16) -> Option<usize>
    ensures { result ≡ position (λ watch. watch == number) watches.now }
{
    watches.iter().position(|watch| *watch == number)
}

// The first cell from `from` on that watches a number, one cell after the other.
fn walk(mem: &[u16], number: u16, from: usize, held: usize) -> Option<usize>
    requires { (lent ≤ length mem.now) × ((from ≤ held) × (held ≤ most_tokens)) }
    ensures value { unwrap_or result held ≡ next_from mem.now number from held }
    ensures inside { IfSome result (λ cell. cell < held) }
{
    let place = place_of(&mem[WATCHES + from..WATCHES + held], number)?;
    Some(from + place)
}

// The first cell from `from` on that watches a number. (A block may reach behind the table: what it has there is no cell.)
pub(crate) fn next(mem: &[u16], number: u16, from: usize, held: usize) -> Option<usize>
    requires { (lent ≤ length mem.now) × ((from ≤ held) × (held ≤ most_tokens)) }
    ensures value { unwrap_or result held ≡ next_from mem.now number from held }
    ensures inside { IfSome result (λ cell. cell < held) }
{
    for cell in (from..held).step_by(BLOCK) {
        if in_block(mem, WATCHES + cell, number) {
            return walk(mem, number, cell, held);
        }
    }
    None
}
