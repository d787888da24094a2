// A line of a letter and as many numbers as there are.
ghost use Rattle.std.specs.Prelude.{◌≡◌};
ghost use Rattle.sink.specs.Sinks.{put_each};
ghost use Rattle.printing.specs.Texts.{spaced, numbers_texts_by, line_texts_by};

use itoa::{Buffer, Integer};
use sink::Sink;

// A space and a number.
#[tactic(auto, unfolding(sink::specs::Sinks::put_each))]
pub fn put_number<N: Integer>(sink: Sink, out: &mut [u8], n: N) -> Sink
    ensures { (result, out.new) ≡ put_each (sink, out.old) (spaced (N.text n)) }
{
    let mut buffer = Buffer::new();
    sink.put(out, b" ").put(out, buffer.format(n).as_bytes())
}

// Numbers, each behind a space.
#[tactic(auto, unfolding(sink::specs::Sinks::put_each))]
fn put_numbers<N: Integer>(sink: Sink, out: &mut [u8], numbers: &[N]) -> Sink
    ensures { (result, out.new) ≡ put_each (sink, out.old) (numbers_texts_by N.text numbers.now) }
{
    let mut said = sink;
    for n in numbers {
        said = put_number(said, out, *n);
    }
    said
}

// A letter, the numbers and the line's end.
#[tactic(auto, unfolding(sink::specs::Sinks::put_each, crate::specs::Texts::line_texts_by))]
pub fn put_line<N: Integer>(sink: Sink, out: &mut [u8], letter: &[u8], numbers: &[N]) -> Sink
    ensures { (result, out.new) ≡ put_each (sink, out.old) (line_texts_by N.text letter.now numbers.now) }
{
    let said = put_numbers(sink.put(out, letter), out, numbers);
    said.put(out, b"\n")
}
