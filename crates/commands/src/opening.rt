// `open`: a run, or one with rounding.
ghost use Rattle.std.specs.Prelude.{◌≡◌, ◌+◌, ◌≤◌, length};
ghost use Rattle.commands.specs.Commands.{rounded_of, open_of};

use crate::{Command, RoundingAt, numbers};
use vocabulary::Pipe;

// W, PIPE, BASE and PATH, as `open W PIPE BASE PATH` has them.
#[tactic(auto, using(crate::proofs::Openings::rounded_read, crate::proofs::Openings::rounded_unread))]
fn read_rounding(text: &[u8], start: usize) -> Option<RoundingAt>
    requires { start + length text.now ≤ 8191 }
    ensures { result ≡ rounded_of start text.now }
{
    let from_pipe = numbers::behind_word(text);
    let from_base = numbers::behind_word(from_pipe);
    let path = numbers::behind_word(from_base);
    if !crate::is_path(path) {
        return None;
    }
    let workers = words::read_first(text, b' ')?;
    let pipe = words::read_first(from_pipe, b' ')?;
    let base = words::read_first(from_base, b' ')?;
    Some(RoundingAt {
        workers,
        pipe: Pipe(pipe),
        base,
        start: start + (text.len() - path.len()),
    })
}

// What follows `open`.
#[tactic(auto, using(crate::proofs::Openings::open_plain, crate::proofs::Openings::open_rounded))]
pub(crate) fn open_of(text: &[u8], start: usize) -> Option<Command>
    requires { start + length text.now ≤ 8191 }
    ensures { result ≡ open_of start text.now }
{
    if text.contains(&b' ') {
        read_rounding(text, start).map(Command::OpenRounded)
    } else {
        words::read_short(text).map(Command::Open)
    }
}
