// Two-byte fields of a part of a file, low byte first. A crate apart from `plan`, whose must-fail edits would each check it again.
#![tactic(auto)]

ghost use Rattle.std.specs.Prelude.{◌≡◌};
ghost use Rattle.fields.specs.Bytes.{field_in};

// The two-byte field at a place, low byte first, and 0 where there is none.
#[tactic(auto, using(crate::proofs::Fields::no_field, crate::proofs::Fields::field_read))]
pub fn field_or_zero(s: &[u8], at: usize) -> u16
    ensures { result ≡ field_in s.now at }
{
    match s.get(at..) {
        Some([low, high, ..]) => u16::from_le_bytes([*low, *high]),
        _ => 0,
    }
}
