// Offers and takings on spoiled runs.
use crate::calls::Choice;
use crate::{compare, report};
use state::State;
use vocabulary::{Event, Line, Pipe, Place, Step, Stop, Token, Worker};

// Whether the taking of an event answers and leaves what the choice does, which is an event.
fn is_taken_alike(choice: &Choice, event: Event) -> bool {
    let made = choice.made();
    let taken = choice.taken(event);
    made.answer.is_ok()
        && made.answer == taken.answer
        && compare::same_state(made.run.state, taken.run.state)
        && made.run.mem == taken.run.mem
}

// The offer, and whether it is an event whose taking is the choice.
#[inline(never)]
fn say_offered(choice: &Choice) {
    let offered = choice.offered();
    let alike = offered.is_ok_and(|event| is_taken_alike(choice, event));
    report::say_offer(report::number_of(offered), alike);
}

pub(crate) fn stop_of(worker: Worker, line: Line) -> Event {
    Event::Stopped(Stop { line, worker })
}

// The finish of what the line's slot holds, whether it runs or not; of zeros for a line that no state has.
pub(crate) fn finish_of(s: State, worker: Worker, line: Line) -> Event {
    let l = usize::from(line.0);
    Event::Finished(Step {
        line,
        pipe: s.at.get(l).copied().unwrap_or(Pipe(0)),
        token: s.token.get(l).copied().unwrap_or(Token(0)),
        place: s.place.get(l).copied().unwrap_or(Place(0)),
        worker,
    })
}

#[inline(never)]
fn say_taking(words: &[u8], choice: &Choice, event: Event) {
    report::say(words, choice.trial(&choice.taken(event)));
}

// What is said of the offer and the takings: `; offer n[ and its taking]; stop n same|changed same|changed; finish n ..`.
pub fn say(choice: &Choice) {
    let stop = stop_of(choice.worker, choice.line);
    let finish = finish_of(choice.run.state, choice.worker, choice.line);
    say_offered(choice);
    say_taking(b"; stop ", choice, stop);
    say_taking(b"; finish ", choice, finish);
}
