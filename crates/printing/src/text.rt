// The program's lines: letters, numbers in decimal, single spaces, and a newline at the end of each. A sink takes bytes, and the lines
// are of fixed letters: so they are byte strings, and no Display (a `Formatter` has no sink and no lent buffer behind it).
ghost use Rattle.std.specs.Prelude.{◌≡◌, [], ◌∷◌};
ghost use Rattle.rules.specs.Answers.{answer_of};
ghost use Rattle.vocabulary.specs.Refusals.{number_of};
ghost use Rattle.sink.specs.Sinks.{put_each};
ghost use Rattle.printing.specs.Texts.{line_texts, refusal_texts, answer_texts};

use crate::line::put_line;
use sink::Sink;
use vocabulary::{Event, Refusal, Step};

// `R n`
#[tactic(auto, unfolding(crate::specs::Texts::refusal_texts))]
pub fn put_refusal(sink: Sink, out: &mut [u8], why: Refusal) -> Sink
    ensures { (result, out.new) ≡ put_each (sink, out.old) (refusal_texts (number_of why)) }
{
    put_line(sink, out, b"R", &[why.number()])
}

// A line of a step: `S l p t k w` or `F l p t k w`, with line, pipe, token, place and worker.
fn put_step(sink: Sink, out: &mut [u8], letter: &[u8], step: Step) -> Sink
    ensures { (result, out.new) ≡ put_each (sink, out.old)
        (line_texts letter.now (step.line.0 ∷ step.pipe.0 ∷ step.token.0 ∷ step.place.0 ∷ step.worker.0 ∷ [])) }
{
    put_line(
        sink,
        out,
        letter,
        &[
            step.line.0,
            step.pipe.0,
            step.token.0,
            step.place.0,
            step.worker.0,
        ],
    )
}

// `S l p t k w`, `F l p t k w`, `X l w` or `R n`
#[tactic(auto, unfolding(crate::specs::Texts::answer_texts, rules::specs::Answers::answer_of))]
pub fn put_answer(sink: Sink, out: &mut [u8], answer: Result<Event, Refusal>) -> Sink
    ensures { (result, out.new) ≡ put_each (sink, out.old) (answer_texts (answer_of answer)) }
{
    match answer {
        Ok(Event::Started(step)) => put_step(sink, out, b"S", step),
        Ok(Event::Finished(step)) => put_step(sink, out, b"F", step),
        Ok(Event::Stopped(stop)) => put_line(sink, out, b"X", &[stop.line.0, stop.worker.0]),
        Err(why) => put_refusal(sink, out, why),
    }
}
