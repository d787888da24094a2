// The tries: choices on spoiled runs, and openings that are refused. Each is a line `VERB W N EDITS:NAME` of data/tries.txt.
//     c    worker W chooses line N, on the run at opening with these edits
//     o    the plan is opened with W workers (N says nothing)
//     e    an empty file is opened with W workers
//     r    a choice of a run with rounding (rounding_tries.rt)
// In capitals, C and O, with one number too few lent. On the run of each choice its offer is tried too, with the taking of what was
// offered, and the takings of two events that are handed in whatever was offered (takings.rt).
use crate::calls::Choice;
use crate::report::{Run, Trial};
use crate::{calls, compare, edits, report, rounding_tries, stored, takings};
use vocabulary::{Line, Worker};

#[derive(Clone, Copy)]
enum Verb {
    Choose { short: bool },
    Open { short: bool },
    OpenEmpty,
    ChooseRounded,
}

// The verb of the next try, if there is one. Any other letter is an `o`.
fn next_verb(fd: i32) -> Option<Verb> {
    match stored::byte(fd) {
        0 => None,
        b'c' => Some(Verb::Choose { short: false }),
        b'C' => Some(Verb::Choose { short: true }),
        b'O' => Some(Verb::Open { short: true }),
        b'e' => Some(Verb::OpenEmpty),
        b'r' => Some(Verb::ChooseRounded),
        _ => Some(Verb::Open { short: false }),
    }
}

// The run at opening, with 2 workers.
fn opened(file: &[u8]) -> Run {
    let mut mem = [0u16; 32768];
    let state = opening::open(file, 2, &mut mem).state;
    Run { state, mem }
}

// An opening, on a memory of sevens that a refusal leaves as it was, and with a state that is then one of zeros.
fn opening(file: &[u8], workers: u16, short: bool) -> Trial {
    let mut mem = [7u16; 32768];
    let count = calls::lent(mem.len(), short);
    let opened = opening::open(file, workers, &mut mem[..count]);
    Trial {
        number: report::number_of(opened.answer),
        state: compare::same_state(opened.state, edits::zeros()),
        memory: mem == [7u16; 32768],
    }
}

// The run of a try: at opening, with the try's edits. The try's name is told.
fn named_run(fd: i32, file: &[u8]) -> Run {
    let mut run = opened(file);
    edits::spoil(fd, &mut run);
    stored::print_line(fd);
    run
}

// (Not part of its caller, as others below: so the runs of one try are not on the stack beside those of another.)
#[inline(never)]
fn say_choice(choice: &Choice) {
    report::say(b": ", choice.trial(&choice.made()));
    takings::say(choice);
}

// A try of an opening; its edits say nothing.
fn say_opening(fd: i32, run_file: &[u8], trial: Trial) {
    named_run(fd, run_file);
    report::say(b": ", trial);
}

// The next try, if there is one.
pub fn next(fd: i32, file: &[u8]) -> bool {
    let Some(verb) = next_verb(fd) else {
        return false;
    };
    let workers = stored::number(fd);
    let worker = Worker(workers);
    let line = Line(stored::number(fd));
    match verb {
        Verb::Choose { short } => say_choice(&Choice {
            run: named_run(fd, file),
            worker,
            line,
            short,
        }),
        Verb::Open { short } => say_opening(fd, file, opening(file, workers, short)),
        Verb::OpenEmpty => say_opening(fd, file, opening(b"", workers, false)),
        Verb::ChooseRounded => {
            let lent = rounding_tries::read(fd);
            rounding_tries::tried(named_run(fd, file), lent, worker, line);
        }
    }
    report::end();
    true
}
