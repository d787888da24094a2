// The lines of a block of input, each answered in turn, up to one that is the program's own. Nothing here trusts its caller.
#![tactic(auto)]

ghost use Rattle.std.specs.Prelude.{◌≡◌, ◌+◌, ◌≤◌, false, true, length, MatchOption};
ghost use Rattle.answering.specs.Answers.{held_of};
ghost use Rattle.rules.specs.Lists.{has};
ghost use Rattle.words.specs.Words.{up_to, past};
ghost use Rattle.serving.specs.Lines.{lines_in, moved_up, FirstLine};
ghost use Rattle.serving.specs.Serving.{for_program, served_from};

use answering::Talk;
use commands::Command;

const NEWLINE: u8 = b'\n';

// How far the text was served, and the run then.
#[derive(Clone, Copy)]
pub struct Served {
    pub at: usize,
    pub talk: Talk,
}

// Whether a command is the program's own: it reads a file, or ends.
fn for_program(command: Command) -> bool
    ensures { result ≡ for_program command }
{
    matches!(
        command,
        Command::Plan(_) | Command::OpenRounded(_) | Command::Mark(_) | Command::Quit
    )
}

// The first whole line, and what follows its newline.
#[tactic(auto, using(words::proofs::Walks::first_none, crate::proofs::Walk::line_within))]
fn first_line(text: &[u8]) -> Option<(&[u8], &[u8])>
    ensures { MatchOption result (has text.now 10 ≡ false) (λ cut. FirstLine text.now cut.0.now cut.1.now) }
{
    let end = words::first(text, NEWLINE)?;
    Some((&text[..end], &text[end + 1..]))
}

// Answers each whole line of a text, up to the first that is the program's own. (No struct of the lent buffers: `choices` of `answering`
// says why.)
pub fn serve(
    talk: Talk,
    text: &[u8],
    file: &[u8],
    mem: &mut [u16],
    cells: &[u32],
    figures: &mut [u32],
    out: &mut [u8],
) -> Served
    ensures within { result.at ≤ length text.now }
    ensures serves { (result.at, held_of result.talk mem.new cells.now figures.new out.new) ≡
        served_from file.now 0 (lines_in text.now)
        (held_of talk mem.old cells.now figures.old out.old) }
{
    let mut now = talk;
    let mut rest = text;
    while let Some((line, behind)) = first_line(rest) {
        let command = commands::parse(line);
        if for_program(command) {
            break;
        }
        now = answering::answer(now, command, file, mem, cells, figures, out);
        rest = behind;
    }
    Served {
        at: text.len() - rest.len(),
        talk: now,
    }
}

// Moves the bytes from one place up to another to the front of a buffer, and returns how many they are; none where they are not within it.
#[tactic(auto, using(crate::proofs::Moving::moved_past, crate::proofs::Moving::moved_none))]
pub fn keep_rest(buffer: &mut [u8], from: usize, to: usize) -> usize
    ensures within { result ≤ length buffer.new }
    ensures moves { (result, buffer.new) ≡ moved_up from to buffer.old }
{
    if buffer.len() < to || to < from {
        return 0;
    }
    buffer.copy_within(from..to, 0);
    to - from
}
