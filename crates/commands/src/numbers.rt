// Several numbers in a row, single spaces between them.
ghost use Rattle.std.specs.Prelude.{◌≡◌, ◌≤◌, length};
ghost use Rattle.commands.specs.Arguments.{space, words_in, pair_in, step_in};
ghost use Rattle.words.specs.Words.{up_to, past};

use vocabulary::{Line, Pipe, Place, Step, Token, Worker};

// The first word.
#[tactic(auto, using(words::proofs::Walks::up_to_is, words::proofs::Walks::up_to_length))]
pub fn first_word(text: &[u8]) -> &[u8]
    ensures { result.now ≡ up_to space text.now }
{
    &text[..words::find(text, b' ')]
}

// What follows the first word and its space.
#[tactic(auto, using(crate::proofs::Arguments::rest_at))]
pub fn behind_word(text: &[u8]) -> &[u8]
    ensures rest { result.now ≡ past space text.now }
    ensures within { length result.now ≤ length text.now }
{
    &text[words::find_past(text, b' ')..]
}

#[derive(Clone, Copy)]
pub struct Two {
    pub first: u16,
    pub second: u16,
}

// Two numbers and no more.
#[tactic(auto, using(crate::proofs::Arguments::pair_read))]
pub fn read_pair(text: &[u8]) -> Option<Two>
    ensures { result ≡ pair_in (words_in text.now) }
{
    let first = words::read_first(text, b' ')?;
    let second = words::read_short(behind_word(text))?;
    Some(Two { first, second })
}

// Line, pipe, token, place and worker, and no more.
#[tactic(auto, using(crate::proofs::Arguments::step_read))]
pub fn read_step(text: &[u8]) -> Option<Step>
    ensures { result ≡ step_in (words_in text.now) }
{
    let from_pipe = behind_word(text);
    let from_token = behind_word(from_pipe);
    let from_place = behind_word(from_token);
    let from_worker = behind_word(from_place);
    let line = words::read_first(text, b' ')?;
    let pipe = words::read_first(from_pipe, b' ')?;
    let token = words::read_first(from_token, b' ')?;
    let place = words::read_first(from_place, b' ')?;
    let worker = words::read_short(from_worker)?;
    Some(Step {
        line: Line(line),
        pipe: Pipe(pipe),
        token: Token(token),
        place: Place(place),
        worker: Worker(worker),
    })
}
