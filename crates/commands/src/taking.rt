// `take`: an event, as its line is printed.
ghost use Rattle.std.specs.Prelude.{◌≡◌};
ghost use Rattle.commands.specs.Arguments.{words_in};
ghost use Rattle.commands.specs.Commands.{stop_in, event_of, event_in};

use crate::numbers;
use vocabulary::{Event, Line, Stop, Worker};

// `X l w`
#[tactic(auto, unfolding(crate::specs::Commands::stop_in))]
fn read_stop(text: &[u8]) -> Option<Stop>
    ensures { result ≡ stop_in (words_in text.now) }
{
    let two = numbers::read_pair(text)?;
    Some(Stop {
        line: Line(two.first),
        worker: Worker(two.second),
    })
}

// An event by the word of its kind, and its numbers.
#[tactic(auto, using(crate::proofs::Arguments::kind_is, crate::proofs::Arguments::kind_not, crate::proofs::Arguments::kind_long), unfolding(crate::specs::Commands::event_of))]
fn event_of(kind: &[u8], text: &[u8]) -> Option<Event>
    ensures { result ≡ event_of kind.now (words_in text.now) }
{
    match kind {
        b"S" => numbers::read_step(text).map(Event::Started),
        b"F" => numbers::read_step(text).map(Event::Finished),
        b"X" => read_stop(text).map(Event::Stopped),
        _ => None,
    }
}

// What follows `take`.
#[tactic(auto, using(crate::proofs::Arguments::take_read))]
pub(crate) fn read_event(text: &[u8]) -> Option<Event>
    ensures { result ≡ event_in (words_in text.now) }
{
    event_of(numbers::first_word(text), numbers::behind_word(text))
}
