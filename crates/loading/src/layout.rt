// A plan's records, laid out in lent memory.
ghost use Rattle.std.specs.Prelude.{◌≡◌, ◌+◌, ◌≤◌, length};
ghost use Rattle.std.proofs.lemmas.List.Edits.{sets};
ghost use Rattle.fields.specs.Bytes.{fields};
ghost use Rattle.plan.specs.Records.{records_in};
ghost use Rattle.loading.specs.Layout.{records_fields, Spells, pointed, laid_out};

use plan::field_or_zero;
use tables::{LENT, POSITIONS};

// Copies the fields of some bytes to the cells from `from` on.
fn copy_fields(part: &[u8], mem: &mut [u16], from: usize)
    requires { from + length part.now ≤ length mem.old }
    ensures { mem.new ≡ sets mem.old from (fields part.now) }
{
    let (fields, _) = part.as_chunks::<2>();
    for (i, field) in fields.iter().enumerate() {
        mem[from + i] = u16::from_le_bytes(*field);
    }
}

// Copies the count and the numbers of each record to the front of the memory, and marks for its token where it stands: 1 + its position.
fn lay_records(part: &[u8], mem: &mut [u16])
    requires in_bounds { 32768 ≤ length mem.old }
    requires spells { Spells part.now (records_in part.now) }
    ensures { mem.new ≡ pointed (sets mem.old 0 (records_fields (records_in part.now))) 0 (records_in part.now) }
{
    let mut rest = part;
    let mut position = 0;
    // (A `while`: an iterator by `from_fn` would keep the rest in a closure, beside these numbers, and be no shorter.)
    while !rest.is_empty() {
        let token = usize::from(field_or_zero(rest, 0));
        let count = field_or_zero(rest, 2);
        let (record, later) = rest.split_at(4 + 2 * usize::from(count));
        copy_fields(&record[2..], mem, usize::from(position));
        mem[POSITIONS + token] = position + 1;
        position += 1 + count;
        rest = later;
    }
}

// Lays the records that a part of a plan's file spells out in memory: the 32,768 numbers that a run uses are cleared, the rest stays.
pub(crate) fn lay_out(part: &[u8], mem: &mut [u16])
    requires in_bounds { 32768 ≤ length mem.old }
    requires spells { Spells part.now (records_in part.now) }
    ensures { mem.new ≡ laid_out (records_in part.now) mem.old }
{
    mem[..LENT].fill(0);
    lay_records(part, mem);
}
