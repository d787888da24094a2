// Standard input: a buffer, of which a part is not served yet.
ghost use Rattle.std.specs.Prelude.{◌≡◌, ◌+◌, ◌≤◌, false, length, IfNone, IfSome};
ghost use Rattle.rules.specs.Lists.{has};
ghost use Rattle.io.specs.Counts.{IsPrefixLen};
ghost use Rattle.console.specs.Inputs.{Within, WholeLine, Arrived, pending, no_input, last_input, input_from, too_long, passed_line, passed_long, ended_with};

use std::io::Read;
use std::rt::Stdin;

const NEWLINE: u8 = b'\n';

// The input that is not served yet, from `at` up to `end`; whether the rest of a line that is too long is passed over; and whether the
// input has ended. The buffer is lent beside it (no heap, fixed memory): so `Within` is in the contracts, and no invariant of this type.
#[derive(Clone, Copy)]
pub struct Input {
    pub at: usize,
    pub end: usize,
    pub skips: bool,
    pub ended: bool,
}

impl Input {
    // Nothing is read yet.
    pub(crate) fn none() -> Self
        ensures { result ≡ no_input }
    {
        Self {
            at: 0,
            end: 0,
            skips: false,
            ended: false,
        }
    }

    // The last that is read, up to `end`.
    fn last(end: usize) -> Self
        ensures { result ≡ last_input end }
    {
        Self {
            end,
            ended: true,
            ..Self::none()
        }
    }

    // The same from another place on.
    pub(crate) fn from(self, at: usize) -> Self
        ensures { result ≡ input_from self at }
    {
        Self { at, ..self }
    }

    // Nothing is left, and the rest of the line is to be passed over.
    pub(crate) fn too_long(self) -> Self
        ensures { result ≡ too_long self }
    {
        Self {
            at: self.end,
            skips: true,
            ..self
        }
    }

    // The part that is not served yet.
    pub(crate) fn pending(self, buffer: &[u8]) -> &[u8]
        requires { Within (length buffer.now) self }
        ensures { result.now ≡ pending self buffer.now }
    {
        &buffer[self.at..self.end]
    }

    // How many bytes stand before the next newline, if there is one.
    #[tactic(auto, using(words::proofs::Walks::first_none))]
    pub(crate) fn line_size(self, buffer: &[u8]) -> Option<usize>
        requires { Within (length buffer.now) self }
        ensures none { IfNone result (has (pending self buffer.now) 10 ≡ false) }
        ensures some { IfSome result (WholeLine self buffer.now) }
    {
        words::first(self.pending(buffer), NEWLINE)
    }

    // Passes over the rest of a line.
    #[tactic(auto, using(crate::proofs::Inputs::passed_all))]
    fn past_line(self, buffer: &[u8]) -> Self
        requires { Within (length buffer.now) self }
        ensures within { Within (length buffer.now) result }
        ensures passes { result ≡ passed_line self (pending self buffer.now) }
    {
        let Some(size) = self.line_size(buffer) else {
            return self.too_long();
        };
        Self {
            at: self.at + size + 1,
            skips: false,
            ..self
        }
    }

    // Passes over the rest of a line that is too long.
    #[tactic(auto, using(crate::proofs::Inputs::skips, crate::proofs::Inputs::skips_not))]
    fn past_long(self, buffer: &[u8]) -> Self
        requires { Within (length buffer.now) self }
        ensures within { Within (length buffer.now) result }
        ensures passes { result ≡ passed_long self (pending self buffer.now) }
    {
        if self.skips {
            self.past_line(buffer)
        } else {
            self
        }
    }
}

// The input has ended: a newline ends what is left, the last line.
#[tactic(auto, using(crate::proofs::Inputs::ended_none, crate::proofs::Inputs::ended_full, crate::proofs::Inputs::ended_line))]
fn end_last(kept: usize, buffer: &mut [u8]) -> Input
    ensures within { Within (length buffer.new) result }
    ensures ends { (result, buffer.new) ≡ ended_with kept buffer.old }
{
    if kept == 0 || buffer.len() <= kept {
        return Input::last(0);
    }
    buffer[kept] = NEWLINE;
    Input::last(kept + 1)
}

// Reads some of the input to the front of a buffer; no bytes where it has ended, and where it can't be read.
fn read_some(mut stdin: Stdin, buffer: &mut [u8]) -> usize
    ensures { IsPrefixLen result buffer.new }
{
    stdin.read(buffer).unwrap_or(0)
}

// Reads more of the input, behind what is left of it.
pub(crate) fn read_more(stdin: Stdin, input: Input, buffer: &mut [u8]) -> Input
    requires { Within (length buffer.old) input }
    ensures within { Within (length buffer.new) result }
    ensures reads { Arrived input (pending input buffer.old) result buffer.new }
{
    let kept = serving::keep_rest(buffer, input.at, input.end);
    let count = read_some(stdin, &mut buffer[kept..]);
    if count == 0 {
        return end_last(kept, buffer);
    }
    let more = Input {
        at: 0,
        end: kept + count,
        ended: false,
        ..input
    };
    more.past_long(buffer)
}
