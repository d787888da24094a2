// The program of document 01: it reads plan.bin, then W and the choices from standard input, two bytes each, and prints a line for each
// choice.
#![tactic(auto)]

use printing::Sink;
use session::Session;
use std::fs::File;
use std::os::fd::AsRawFd;

// Standard input's number.
const STDIN: i32 = 0;

// Reads some of the input and makes its choices; none at the input's end. A reading is full unless the input ends, and its size is even:
// so it parts no choice.
fn feed_some(session: Session, mem: &mut [u16], out: &mut [u8]) -> Option<Session> {
    let mut input = io::large_buffer();
    let got = io::read_full(STDIN, &mut input);
    (0 < got).then(|| feeding::feed(session, &input[..got], mem, out))
}

// All of the input.
fn feed_rest(session: Session, mem: &mut [u16], out: &mut [u8]) -> Session {
    let mut now = session;
    // A proved loop has to end, and nothing says that the input does: so it counts, to a number that no input reaches.
    for _ in 0..u64::MAX {
        let Some(next) = feed_some(now, mem, out) else {
            break;
        };
        now = next;
    }
    now
}

// The run of a plan, whose W has been read.
fn serve(file: &[u8], workers: u8) {
    let mut mem = [0u16; 32768];
    let mut out = io::large_buffer();
    let begun = session::begin(file, workers, &mut mem, Sink::written(), &mut out);
    let last = match begun {
        Ok(started) => {
            let done = feed_rest(started, &mut mem, &mut out);
            session::close(done, &mut out)
        }
        Err(refused) => refused.sink,
    };
    last.flush(&out);
}

// The first byte of the input is W; an absent one reads as 0.
fn run(file: &[u8]) {
    let mut first = [0u8; 1];
    let got = io::read_full(STDIN, &mut first);
    serve(file, if got == 0 { 0 } else { first[0] });
}

// A missing plan.bin counts as empty. The buffer takes one byte more than the longest plan file, so that a longer file is seen to be longer.
fn main(rt: HostRuntime) {
    let mut file = [0u8; 32797];
    let size = match File::open(&rt, "plan.bin") {
        Ok(plan) => io::read_full(plan.as_raw_fd(), &mut file),
        Err(_) => 0,
    };
    run(&file[..size]);
}
