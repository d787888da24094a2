// Calls the engine on states and memory that no run leaves, and prints what it answers and whether state and memory are as before.
// What it tries is in data/tries.txt; what it must print is written by hand, from documents 01 and 02 and the ranges of docs/LAYOUT.md.
#![tactic(auto)]

mod calls;
mod compare;
mod edits;
mod report;
mod rounding_tries;
mod stored;
mod takings;
mod tries;

use std::fs::File;
use std::os::fd::AsRawFd;

// Every stored try. (A proved loop has to end, and nothing says that a file does.)
fn each(fd: i32, file: &[u8]) {
    for _ in 0..u64::MAX {
        if !tries::next(fd, file) {
            break;
        }
    }
}

// The run that is spoiled: examples/backwards.plan (3 tokens, 2 lines, 2 serial pipes) with 2 workers.
fn main(rt: HostRuntime) -> std::io::Result<()> {
    let mut file = [0u8; 64];
    let plan = File::open(&rt, "plan.bin")?;
    let size = io::read_full(plan.as_raw_fd(), &mut file);
    let tries = File::open(&rt, "tries.txt")?;
    each(tries.as_raw_fd(), &file[..size]);
    Ok(())
}
