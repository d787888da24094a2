// Loading a plan: its file is read, and its records are laid out in lent memory.
#![tactic(auto)]

mod layout;

ghost use Rattle.std.specs.Prelude.{◌≡◌};
ghost use Rattle.plan.specs.Reading.{read_of, reading_of};
ghost use Rattle.loading.specs.Loading.{load_of};

use plan::Header;
use state::MOST_WORKERS;
use tables::LENT;
use vocabulary::Refusal;

// What loading a plan from its file answers: refused with 1 to 9, or accepted. Nothing is written.
pub fn preview(file: &[u8], workers: u16, mem: &[u16]) -> Result<Header, Refusal>
    ensures { result ≡ reading_of (load_of file.now workers mem.now).0 }
{
    let header = plan::read(file)?;
    if !(1..=MOST_WORKERS).contains(&workers) {
        return Err(Refusal::Workers);
    }
    if mem.len() < LENT {
        return Err(Refusal::Memory);
    }
    Ok(header)
}

// Loads a plan from its file for so many workers: refused with 1 to 9, or laid out in the lent memory.
pub fn load(file: &[u8], workers: u16, mem: &mut [u16]) -> Result<Header, Refusal>
    ensures answer { result ≡ reading_of (load_of file.now workers mem.old).0 }
    ensures memory { mem.new ≡ (load_of file.now workers mem.old).1 }
{
    let h = preview(file, workers, mem)?;
    layout::lay_out(&file[..usize::from(h.start)], mem);
    Ok(h)
}
