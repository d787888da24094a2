// The tries: the small run, and journals with something changed.
use crate::run::{finished, record, started, stopped};
use crate::{lent, run};
use vocabulary::EventRecord;

// The run with another event at this index, over its plan and with two workers.
fn changed(name: &[u8], i: usize, e: EventRecord) {
    lent::of(name, 3, 2, run::replaced(run::run(), i, e));
}

fn exchanged(name: &[u8], i: usize) {
    lent::of(name, 3, 2, run::exchanged(i));
}

fn repeated(name: &[u8], i: usize) {
    lent::of(name, 3, 2, run::repeated(i));
}

// Halls of several sizes.
pub fn halls() {
    lent::of(b"W = 2", 3, 2, run::run());
    lent::of(b"W = 32", 3, 32, run::run());
    lent::of(b"W = 1", 3, 1, run::run());
    lent::of(b"W = 0", 3, 0, run::run());
    lent::of(b"W = 33", 3, 33, run::run());
}

// Other plans, and files that are none. With a fourth token no line stops yet; with two, both waiting for token 2, the first choice
// ends the run.
pub fn plans() {
    lent::of(b"4 tokens", 4, 2, run::run());
    lent::of(b"4 tokens, 13 right events", 4, 2, run::longer());
    lent::of(b"2 tokens", 2, 2, run::run());
    lent::of(
        b"2 tokens, after the end",
        2,
        2,
        run::replaced(run::run(), 0, stopped(0, 0)),
    );
    lent::of(b"1 token", 1, 2, run::run());
    lent::over(b"no file", b"", 2, run::run());
    lent::over(b"11 bytes, W = 0", b"11111111111", 0, run::run());
}

// A field changed.
pub fn fields() {
    changed(b"token", 4, finished(1, 0, 2, 1, 0));
    changed(b"place", 7, started(0, 0, 0, 3, 1));
    changed(b"pipe", 3, started(0, 0, 2, 0, 1));
    changed(b"letter", 1, started(0, 0, 2, 0, 0));
    changed(b"no letter", 0, record(b's', 0, 0, 2, 0, 0));
    changed(b"last event", 12, finished(0, 1, 1, 2, 0));
}

// The line of a start or finish changed.
pub fn lines() {
    changed(b"line that would start", 2, started(0, 0, 1, 1, 0));
    changed(b"line that waits", 0, started(1, 0, 2, 0, 0));
    changed(b"line L", 5, finished(2, 1, 2, 0, 1));
    changed(b"line L, worker W", 5, finished(2, 1, 2, 0, 2));
}

// The worker of a start or finish changed; a start by another who is idle is right, and the finish that follows it is not.
pub fn workers() {
    changed(b"start by another", 0, started(0, 0, 2, 0, 1));
    changed(b"start by a busy worker", 3, started(0, 1, 2, 0, 0));
    changed(b"finish by another", 4, finished(1, 0, 1, 1, 1));
    changed(b"worker W", 0, started(0, 0, 2, 0, 2));
}

// A stop has 0 in pipe, token and place.
pub fn stops() {
    changed(
        b"stop with a pipe",
        10,
        record(EventRecord::STOPPED, 1, 1, 0, 0, 0),
    );
    changed(
        b"stop with a token",
        10,
        record(EventRecord::STOPPED, 1, 0, 1, 0, 0),
    );
    changed(
        b"stop with a place",
        10,
        record(EventRecord::STOPPED, 1, 0, 0, 1, 0),
    );
    changed(b"stop in place of a start", 11, stopped(0, 0));
}

// Neighbours exchanged; where both orders are right, the run is complete.
pub fn exchanges() {
    exchanged(b"0 and 1", 0);
    exchanged(b"2 and 3", 2);
    exchanged(b"3 and 4", 3);
    exchanged(b"5 and 6", 5);
    exchanged(b"9 and 10", 9);
    exchanged(b"10 and 11", 10);
    exchanged(b"11 and 12", 11);
}

// The last event a copy of another.
pub fn copies() {
    repeated(b"7 again", 7);
    repeated(b"10 again", 10);
    repeated(b"11 again", 11);
}

// Too little memory, more than enough, and what becomes of it.
pub fn memories() {
    lent::in_memory(b"32,767 numbers", 32767, 0);
    lent::in_memory(b"32,770 numbers", 32770, 32768);
    lent::beside_choices(b"13 events", run::run(), 13);
    lent::beside_choices(b"12 events", run::repeated(7), 12);
    lent::beside_choices(b"9 events", run::exchanged(9), 9);
    lent::beside_choices(b"no event", run::exchanged(0), 0);
}
