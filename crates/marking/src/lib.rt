// Marking a journal, events that were written down without the choices that gave them: how it begins, one event, and how it ends.
#![tactic(auto)]

ghost use Rattle.std.specs.Prelude.{◌≡◌, not, List, [], ◌∷◌, length, slice_get};
ghost use Rattle.vocabulary.specs.declared.event.EventRecord.{EventRecord};
ghost use Rattle.rules.specs.Answers.{answer_of};
ghost use Rattle.rules.specs.Journals.{CorrectSoFar, Wrong, goes_on, closing, unless_refused, mark_more};
ghost use Rattle.tables.specs.Calls.{memory_source};
ghost use Rattle.state.specs.Ending.{ended_of};
ghost use Rattle.marking.specs.Marking.{verdict_of, marked_of, begun, walked, mark_of, left_memory};

use state::State;
use vocabulary::{Event, EventRecord, Refusal};

// What marking says.
#[derive(Clone, Copy)]
pub enum Marking {
    // the rules give every event, and they end the run
    Complete,
    // the rules give every event
    CorrectSoFar,
    // the index of the first event that the rules do not give, and why
    Wrong(usize, Refusal),
    // no event was looked at: why the run was not opened
    NotOpened(Refusal),
}

// How far marking has come: what it says of the events so far, and the state that the accepted ones left.
#[derive(Clone, Copy)]
pub struct Progress {
    pub marking: Marking,
    pub state: State,
}

// A journal: events, each with its index. (Not any Iterator: a walk over one asks of its caller that it ends, and no public function asks
// anything.)
pub trait Journal {
    ghost events: { Self → List EventRecord };

    // How many there are.
    fn count(&self) -> usize
        ensures { result ≡ length (events self.now) };

    // The event with this index, if there are so many.
    fn event(&self, i: usize) -> Option<EventRecord>
        ensures { result ≡ slice_get (events self.now) i };
}

impl Journal for &[EventRecord] {
    ghost events = { λ records. records.now };

    fn count(&self) -> usize {
        self.len()
    }

    fn event(&self, i: usize) -> Option<EventRecord> {
        self.get(i).copied()
    }
}

// Opens the run of a journal.
#[tactic(auto, unfolding(crate::specs::Marking::marked_of, crate::specs::Marking::begun))]
pub fn begin(file: &[u8], workers: u16, mem: &mut [u16]) -> Progress
    ensures { marked_of result mem.new ≡ begun file.now workers mem.old }
{
    let opened = opening::open(file, workers, mem);
    let marking = match opened.answer {
        Ok(()) => Marking::CorrectSoFar,
        Err(why) => Marking::NotOpened(why),
    };
    Progress {
        marking,
        state: opened.state,
    }
}

impl Progress {
    // Whether no event is looked at any more: one was wrong, or the run was not opened.
    pub fn settled(self) -> bool
        ensures { result ≡ not (goes_on (verdict_of self.marking)) }
    {
        !matches!(self.marking, Marking::CorrectSoFar)
    }
}

// What marking says after the event with this index, by what its choice answers.
#[tactic(auto, using(crate::proofs::StepLaws::unless_made), unfolding(rules::specs::Answers::answer_of))]
fn marking_after(i: usize, answer: Result<Event, Refusal>) -> Marking
    ensures { verdict_of result ≡ unless_refused (answer_of answer) (Wrong i) CorrectSoFar }
{
    match answer {
        Ok(_) => Marking::CorrectSoFar,
        Err(why) => Marking::Wrong(i, why),
    }
}

// The event with this index, if those before it are right: it is made if the choice of its worker and line gives it.
#[tactic(auto, using(crate::proofs::StepLaws::event_tried, crate::proofs::StepLaws::event_passed))]
pub fn mark_event(p: Progress, mem: &mut [u16], i: usize, event: EventRecord) -> Progress
    ensures { marked_of result mem.new ≡ mark_more memory_source (marked_of p mem.old) i (event ∷ []) }
{
    if p.settled() {
        return p;
    }
    let chosen = engine::take_record(p.state, mem, event, Refusal::JournalDiffers);
    Progress {
        marking: marking_after(i, chosen.answer),
        state: chosen.state,
    }
}

// What marking says when no event is left.
pub fn close(p: Progress) -> Marking
    ensures { verdict_of result ≡ closing (ended_of p.state) (verdict_of p.marking) }
{
    match p.marking {
        Marking::CorrectSoFar if state::ended(p.state) => Marking::Complete,
        marking => marking,
    }
}

// Marks a journal: the run of a plan with so many workers is opened in the lent memory, and the events are made one after another, up to
// the first that is not what its line would do.
pub fn mark_all<J: Journal>(file: &[u8], workers: u16, journal: &J, mem: &mut [u16]) -> Marking
    ensures { (verdict_of result ≡ mark_of file.now workers (J.events journal.now) mem.old)
        × (mem.new ≡ left_memory (walked file.now workers (J.events journal.now) mem.old)) }
{
    let mut p = begin(file, workers, mem);
    for i in 0..journal.count() {
        let Some(event) = journal.event(i) else {
            break;
        };
        p = mark_event(p, mem, i, event);
        if p.settled() {
            break;
        }
    }
    close(p)
}
