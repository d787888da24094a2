// The plan reader: a plan's file is read whole, or refused with the number of the first check that fails.
#![tactic(auto)]

ghost use Rattle.std.specs.Prelude.{◌≡◌, ◌+◌, ◌≤◌, length};
ghost use Rattle.plan.specs.Reading.{parts_check, read_of, reading_of};

mod pipes;
mod records;
mod trailer;

pub use fields::field_or_zero;
pub use trailer::Header;
use vocabulary::Refusal;

// The parts of the file behind the trailer: the pipe bytes, then the records.
fn check_parts(file: &[u8], h: Header) -> Result<(), Refusal>
    requires { h.start + h.pipes ≤ length file.now }
    ensures { result ≡ parts_check h file.now }
{
    let start = usize::from(h.start);
    let end = start + usize::from(h.pipes);
    pipes::check_pipes(&file[start..end])?;
    records::check_records(&file[..start], h.tokens, h.records)
}

// The plan's header, or the refusal of the first check that fails.
pub fn read(file: &[u8]) -> Result<Header, Refusal>
    ensures { result ≡ reading_of (read_of file.now) }
{
    let size = file.len();
    if !(12..=32796).contains(&size) {
        return Err(Refusal::FileSize);
    }
    let h = trailer::read_trailer(file);
    trailer::check_header(h, size)?;
    check_parts(file, h)?;
    Ok(h)
}
