// The lines of the answers.
ghost use Rattle.std.specs.Prelude.{◌≡◌};
ghost use Rattle.sink.specs.Sinks.{put_each};
ghost use Rattle.vocabulary.specs.Refusals.{number_of};
ghost use Rattle.marking.specs.Marking.{verdict_of};
ghost use Rattle.answering.specs.Lines.{header_texts, reading_texts, opening_texts, wrong_texts, marking_texts};

use marking::Marking;
use plan::Header;
use printing::Sink;
use vocabulary::Refusal;

// `P p l n r e`: pipes, lines, tokens, records, edition.
#[tactic(auto, unfolding(crate::specs::Lines::header_texts))]
fn put_header(sink: Sink, out: &mut [u8], h: Header) -> Sink
    ensures { (result, out.new) ≡ put_each (sink, out.old) (header_texts h) }
{
    printing::put_line(
        sink,
        out,
        b"P",
        &[h.pipes, h.lines, h.tokens, h.records, h.edition],
    )
}

// Of a plan that was read its header, or `R n`.
#[tactic(auto, unfolding(crate::specs::Lines::reading_texts))]
pub(crate) fn put_reading(sink: Sink, out: &mut [u8], reading: Result<Header, Refusal>) -> Sink
    ensures { (result, out.new) ≡ put_each (sink, out.old) (reading_texts reading) }
{
    match reading {
        Ok(h) => put_header(sink, out, h),
        Err(why) => printing::put_refusal(sink, out, why),
    }
}

// `A` or `R n`
#[tactic(auto, using(crate::proofs::Laws::opens), unfolding(crate::specs::Lines::opening_texts))]
pub(crate) fn put_opening(sink: Sink, out: &mut [u8], answer: Result<(), Refusal>) -> Sink
    ensures { (result, out.new) ≡ put_each (sink, out.old) (opening_texts answer) }
{
    match answer {
        Ok(()) => sink.put(out, b"A\n"),
        Err(why) => printing::put_refusal(sink, out, why),
    }
}

// `wrong i n`: the event's index, and why it is refused.
#[tactic(auto, using(crate::proofs::Laws::wrong_put))]
fn put_wrong(sink: Sink, out: &mut [u8], i: usize, why: Refusal) -> Sink
    ensures { (result, out.new) ≡ put_each (sink, out.old) (wrong_texts i (number_of why)) }
{
    printing::put_line(sink, out, b"wrong", &[i, usize::from(why.number())])
}

// `complete`, `correct so far`, `wrong i n` or `R n`
#[tactic(auto, using(crate::proofs::Laws::marks_complete, crate::proofs::Laws::marks_so_far), unfolding(crate::specs::Lines::marking_texts))]
pub(crate) fn put_marking(sink: Sink, out: &mut [u8], marking: Marking) -> Sink
    ensures { (result, out.new) ≡ put_each (sink, out.old) (marking_texts (verdict_of marking)) }
{
    match marking {
        Marking::Complete => sink.put(out, b"complete\n"),
        Marking::CorrectSoFar => sink.put(out, b"correct so far\n"),
        Marking::Wrong(i, why) => put_wrong(sink, out, i, why),
        Marking::NotOpened(why) => printing::put_refusal(sink, out, why),
    }
}
