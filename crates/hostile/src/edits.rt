// Runs are spoiled by edits, `LETTER AT VALUE`. The letters are
//     P L W K X   of the state: pipes, lines, workers, tokens with a place, whether it is marked stopped (1)
//     S C         pipe AT is serial (1) or not (0), counter AT
//     p r t k w   of line AT: its pipe, whether it runs (1), its token, its place, its worker
//     N T F E D   of the tables: tokens, count (taken), the ready queue's first and end, how many are deferred
//     M           lent number AT
//     Z           all of the state is that of a refused opening
//     !           no damage: line AT is chosen, by worker VALUE
// (A letter of the file is matched once, in `edit`: an enum between would list each of them twice more.)
use crate::report::Run;
use crate::stored;
use state::State;
use tables::Tables;
use vocabulary::{Line, Pipe, Place, Token, Worker};

// A refused opening's state.
pub fn zeros() -> State {
    State {
        pipes: 0,
        lines: 0,
        workers: 0,
        serial: [false; 16],
        counters: [0; 512],
        at: [Pipe(0); 32],
        running: [false; 32],
        token: [Token(0); 32],
        place: [Place(0); 32],
        worker: [Worker(0); 32],
        placed: 0,
        stopped: false,
        tables: Tables {
            tokens: 0,
            count: 0,
            first: 0,
            end: 0,
            held: 0,
        },
    }
}

fn put<T: Copy>(all: &mut [T], at: usize, value: T) {
    if let Some(place) = all.get_mut(at) {
        *place = value;
    }
}

// A choice on the run, by a worker of whom nothing need be right.
fn choose(run: &mut Run, worker: u16, line: u16) {
    let chosen = engine::choose(run.state, &mut run.mem, Worker(worker), Line(line));
    run.state = chosen.state;
}

// Makes an edit; one by another letter, or past an array's end, says nothing. (In place, as a run is 64 KiB.)
fn edit(run: &mut Run, letter: u8, at: u16, n: u16) {
    let i = usize::from(at);
    match letter {
        b'P' => run.state.pipes = n,
        b'L' => run.state.lines = n,
        b'W' => run.state.workers = n,
        b'K' => run.state.placed = n,
        b'X' => run.state.stopped = n == 1,
        b'S' => put(&mut run.state.serial, i, n == 1),
        b'C' => put(&mut run.state.counters, i, (n % 256) as u8),
        b'p' => put(&mut run.state.at, i, Pipe(n)),
        b'r' => put(&mut run.state.running, i, n == 1),
        b't' => put(&mut run.state.token, i, Token(n)),
        b'k' => put(&mut run.state.place, i, Place(n)),
        b'w' => put(&mut run.state.worker, i, Worker(n)),
        b'N' => run.state.tables.tokens = n,
        b'T' => run.state.tables.count = n,
        b'F' => run.state.tables.first = n,
        b'E' => run.state.tables.end = n,
        b'D' => run.state.tables.held = n,
        b'M' => put(&mut run.mem, i, n),
        b'Z' => run.state = zeros(),
        b'!' => choose(run, n, at),
        _ => {}
    }
}

// Makes the edits of a try, which end with a colon.
pub fn spoil(fd: i32, run: &mut Run) {
    for _ in 0..16 {
        let letter = stored::byte(fd);
        if letter == b':' {
            break;
        }
        let at = stored::number(fd);
        let n = stored::number(fd);
        edit(run, letter, at, n);
    }
}
