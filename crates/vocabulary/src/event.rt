// Events: what an accepted choice answers. (A choice answers `Result<Event, Refusal>`; `answer_of` of the rules, specs/Answers.antt, sets out
// the paper's values for each case.)
ghost use Rattle.std.specs.Prelude.{◌≡◌};
ghost use Rattle.vocabulary.specs.Events.{step_record, event_record, same_record};

use crate::{Line, Pipe, Place, Token, Worker};

// A start or a finish: which line, at which pipe, with which token and place, and by which worker.
#[derive(Clone, Copy, PartialEq, Eq)]
pub struct Step {
    pub line: Line,
    pub pipe: Pipe,
    pub token: Token,
    pub place: Place,
    pub worker: Worker,
}

// A stop: which line, and by which worker.
#[derive(Clone, Copy, PartialEq, Eq)]
pub struct Stop {
    pub line: Line,
    pub worker: Worker,
}

#[derive(Clone, Copy, PartialEq, Eq)]
pub enum Event {
    Started(Step),
    Finished(Step),
    Stopped(Stop),
}

// An event as numbers: its kind, the program's letter as a byte, and its line, pipe, token, place and worker. A stop has 0 in
// pipe, token and place.
#[derive(Clone, Copy, PartialEq, Eq)]
pub struct EventRecord {
    pub kind: u8,
    pub line: u16,
    pub pipe: u16,
    pub token: u16,
    pub place: u16,
    pub worker: u16,
}

impl EventRecord {
    // The kinds.
    pub const STARTED: u8 = b'S';

    pub const FINISHED: u8 = b'F';

    pub const STOPPED: u8 = b'X';

    // A start or a finish, by its kind.
    fn of_step(kind: u8, step: Step) -> EventRecord
        ensures { result ≡ step_record kind step }
    {
        EventRecord {
            kind,
            line: step.line.0,
            pipe: step.pipe.0,
            token: step.token.0,
            place: step.place.0,
            worker: step.worker.0,
        }
    }

    // Whether two records agree in every field.
    #[tactic(auto, unfolding(crate::specs::Events::same_record))]
    pub fn same(self, other: EventRecord) -> bool
        ensures { result ≡ same_record self other }
    {
        self == other
    }
}

impl Event {
    // The event as numbers.
    pub fn record(self) -> EventRecord
        ensures { result ≡ event_record self }
    {
        match self {
            Event::Started(step) => EventRecord::of_step(EventRecord::STARTED, step),
            Event::Finished(step) => EventRecord::of_step(EventRecord::FINISHED, step),
            Event::Stopped(stop) => EventRecord {
                kind: EventRecord::STOPPED,
                line: stop.line.0,
                pipe: 0,
                token: 0,
                place: 0,
                worker: stop.worker.0,
            },
        }
    }
}
