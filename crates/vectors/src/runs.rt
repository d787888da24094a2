// The stored runs: a plan and the program's input, printed whole after `=`; or a plan and choices made from a seed, of which
// `# lines sum` is printed, the digest of the output.
use crate::stored;
use printing::Sink;
use session::Session;

// Choices made from a seed, of so many workers: so many, each of a line below a modulus.
#[derive(Clone, Copy)]
struct Made {
    workers: u8,
    count: u32,
    seed: u32,
    modulus: u16,
}

// The seed after this one, by the rule of 02's practice orders.
fn next_seed(seed: u32) -> u32 {
    seed.wrapping_mul(1664525).wrapping_add(1013904223)
}

// The line that a seed names; 0 where the modulus leaves none.
fn line_of(seed: u32, modulus: u16) -> u8 {
    let line = (seed / 65536).checked_rem(u32::from(modulus % 257));
    line.map_or(0, |line| (line % 256) as u8)
}

// The worker that it names: the line's number mod W; and one time in 16 a number that no worker has.
fn worker_of(seed: u32, workers: u8, line: u8) -> u8 {
    if seed / 268435456 == 0 {
        return workers.wrapping_add(line);
    }
    line.checked_rem(workers).unwrap_or(0)
}

// Feeds the choices that are made.
fn feed_made(session: Session, made: Made, mem: &mut [u16], out: &mut [u8]) -> Session {
    let mut now = session;
    let mut seed = made.seed;
    for _ in 0..made.count {
        seed = next_seed(seed);
        let line = line_of(seed, made.modulus);
        let worker = worker_of(seed, made.workers, line);
        now = feeding::choose(now, worker, line, mem, out);
    }
    now
}

// A run of the program, its choices fed by the caller.
fn serve<F: FnOnce(Session, &mut [u16], &mut [u8]) -> Session>(
    file: &[u8],
    workers: u8,
    sink: Sink,
    out: &mut [u8],
    feed: F,
) -> Sink
    requires { F.IsAlwaysCallable feed }
{
    let mut mem = [0u16; 32768];
    match session::begin(file, workers, &mut mem, sink, out) {
        Ok(session) => session::close(feed(session, &mut mem, out), out),
        Err(refused) => refused.sink,
    }
}

// A run whose input is stored: W, then the choices. An absent W reads as the 0 that the buffer begins with.
fn stored_run(fd: i32, file: &[u8], sink: Sink, out: &mut [u8]) -> Sink {
    let mut input = io::large_buffer();
    let size = u32::from_le_bytes(stored::array(fd));
    let end = stored::bytes(fd, size, &mut input).max(1);
    let choices = &input[1..end];
    let sink = sink.put(out, b"=\n");
    serve(file, input[0], sink, out, |session, mem, out| {
        feeding::feed(session, choices, mem, out)
    })
}

// A run whose choices are made, digested.
fn digest(file: &[u8], made: Made) -> Sink {
    let mut out = io::large_buffer();
    let done = serve(
        file,
        made.workers,
        Sink::digested(),
        &mut out,
        |session, mem, out| feed_made(session, made, mem, out),
    );
    done.flush(&out)
}

fn made_run(fd: i32, file: &[u8], sink: Sink, out: &mut [u8]) -> Sink {
    let [workers] = stored::array::<1>(fd);
    let made = Made {
        workers,
        count: u32::from_le_bytes(stored::array(fd)),
        seed: u32::from_le_bytes(stored::array(fd)),
        modulus: u16::from_le_bytes(stored::array(fd)),
    };
    let done = digest(file, made).digest;
    printing::put_line(sink, out, b"#", &[done.lines, done.sum])
}

// The run that is stored after its plan: a byte says of which kind it is.
pub fn put_run(fd: i32, file: &[u8], sink: Sink, out: &mut [u8]) -> Sink {
    match stored::array::<1>(fd) {
        [0] => stored_run(fd, file, sink, out),
        _ => made_run(fd, file, sink, out),
    }
}
