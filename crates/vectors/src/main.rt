// Runs the stored plans and runs. What it must print is made by the second implementation (tests/second/vectors.py has the format).
#![tactic(auto)]

mod plans;
mod runs;
mod stored;

use printing::Sink;
use std::fs::File;
use std::os::fd::AsRawFd;

// The next stored plan, and what is said of it; none at the end of the file.
fn next<F: Fn(i32, &[u8], Sink, &mut [u8]) -> Sink>(
    fd: i32,
    say: &F,
    sink: Sink,
    out: &mut [u8],
) -> Option<Sink>
    requires { F.IsAlwaysCallable say.now }
{
    let size = stored::size(fd)?;
    let mut file = io::large_buffer();
    let got = stored::bytes(fd, u32::from(size), &mut file);
    Some(say(fd, &file[..got], sink, out))
}

// All of a file.
fn each<F: Fn(i32, &[u8], Sink, &mut [u8]) -> Sink>(fd: i32, say: &F, out: &mut [u8]) -> Sink
    requires { F.IsAlwaysCallable say.now }
{
    let mut sink = Sink::written();
    // A proved loop has to end, and nothing says that a file does.
    for _ in 0..u64::MAX {
        let Some(said) = next(fd, say, sink, out) else {
            break;
        };
        sink = said;
    }
    sink
}

fn print<F: Fn(i32, &[u8], Sink, &mut [u8]) -> Sink>(
    rt: &HostRuntime,
    name: &str,
    say: &F,
) -> std::io::Result<()>
    requires { F.IsAlwaysCallable say.now }
{
    let file = File::open(rt, name)?;
    let mut out = io::large_buffer();
    let sink = each(file.as_raw_fd(), say, &mut out);
    sink.flush(&out);
    Ok(())
}

fn main(rt: HostRuntime) -> std::io::Result<()> {
    print(
        &rt,
        "plans.bin",
        &|_, file, sink, out| { plans::put_reading(file, sink, out) },
    )?;
    print(&rt, "runs.bin", &runs::put_run)
}
