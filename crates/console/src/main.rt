// The console: reads commands from standard input, a line each, and answers each with a line on standard output. Answers are written
// out before more input is read.
#![tactic(auto)]

mod files;
mod input;

ghost use Rattle.std.specs.Prelude.{◌≡◌, ◌+◌, ◌<◌, ◌≤◌, length, take, drop};
ghost use Rattle.commands.specs.Commands.{command_of};
ghost use Rattle.console.specs.Inputs.{Within};
ghost use Rattle.console.specs.Consoles.{Kept, begun, finished, console_from, refused_long};
ghost use Rattle.console.specs.Turns.{Answered, Planned, Rounded, Marked, Obeyed, fresh_numbers, Waited, Turned, Turns, lent_of, whole};

use answering::Talk;
use commands::{Command, JournalAt, MOST_OF_LINE, RoundingAt};
use input::Input;
use printing::Sink;
use std::rt::Stdin;

// What the console keeps beside its buffers: the run and its output, the plan file's size, which input is not served yet, and whether
// all is done. The buffers are lent to each call, and their lengths stand here (no heap, fixed memory): so what `Kept` says of both is
// in the contracts, and no invariant of a type.
#[derive(Clone, Copy)]
pub struct Console {
    pub talk: Talk,
    pub size: usize,
    pub input: Input,
    pub done: bool,
}

// `plan PATH`: the file is kept for later commands.
fn take_plan(
    rt: &HostRuntime,
    was: Console,
    path: &[u8],
    file: &mut [u8],
    out: &mut [u8],
) -> Console
    ensures { Planned was out.old result file.new out.new }
{
    let size = files::read(rt, path, file);
    let talk = answering::answer_plan(was.talk, &file[..size], out);
    Console { talk, size, ..was }
}

// The most bytes that are read of a file of cells: one cell more than a plan can have tokens.
const CELL_BYTES: usize = 16388;

// The most bytes that are read of a journal: one record more than a run can have.
const JOURNAL_BYTES: usize = 1441814;

// A buffer for a file.
fn file_buffer<const N: usize>() -> [u8; N]
    ensures { N ≡ length result }
{
    [0; N]
}

// A buffer for a file of cells.
fn cells_buffer() -> [u8; CELL_BYTES]
    ensures { 16388 ≡ length result }
{
    file_buffer()
}

// A buffer for a journal.
fn journal_buffer() -> [u8; JOURNAL_BYTES]
    ensures { 1441814 ≡ length result }
{
    file_buffer()
}

// `open W PIPE BASE PATH`: the cells are kept for later choices.
fn take_cells(
    rt: &HostRuntime,
    was: Console,
    asked: RoundingAt,
    path: &[u8],
    file: &[u8],
    mem: &mut [u16],
    cells: &mut [u32],
    figures: &mut [u32],
    out: &mut [u8],
) -> Console
    requires { was.size ≤ length file.now }
    ensures { Rounded asked was file.now (lent_of mem.old cells.old figures.old) out.old
        result (lent_of mem.new cells.new figures.new) out.new }
{
    let mut bytes = cells_buffer();
    let found = files::read(rt, path, &mut bytes);
    let many = cells::read_cells(&bytes[..found], cells);
    let talk = answering::answer_open_rounded(
        was.talk,
        &file[..was.size],
        asked,
        many,
        mem,
        cells,
        figures,
        out,
    );
    Console { talk, ..was }
}

// Lent numbers for the run of a journal.
fn fresh_numbers() -> [u16; 32768]
    ensures size { 32768 ≡ length result }
    ensures zeros { result ≡ fresh_numbers }
{
    [0; 32768]
}

// `mark W PATH`: the journal is marked in lent numbers of its own.
fn take_journal(
    rt: &HostRuntime,
    was: Console,
    workers: u16,
    path: &[u8],
    file: &[u8],
    out: &mut [u8],
) -> Console
    requires { was.size ≤ length file.now }
    ensures { Marked workers was file.now out.old result out.new }
{
    let mut journal = journal_buffer();
    let mut mem = fresh_numbers();
    let count = files::read(rt, path, &mut journal);
    let talk = answering::answer_mark(
        was.talk,
        &file[..was.size],
        workers,
        &journal[..count],
        &mut mem,
        out,
    );
    Console { talk, ..was }
}

// After `quit`, and after the last line of the input, nothing more is done.
fn finish(was: Console) -> Console
    ensures { result ≡ finished was }
{
    Console { done: true, ..was }
}

// Does what a line asks for that is the program's own; only such a line is left by `serve` (`left_is_own`).
fn obey(
    rt: &HostRuntime,
    was: Console,
    line: &[u8],
    file: &mut [u8],
    mem: &mut [u16],
    cells: &mut [u32],
    figures: &mut [u32],
    out: &mut [u8],
) -> Console
    requires { was.size ≤ length file.old }
    ensures kept { (result.size ≤ length file.new) × (result.input ≡ was.input) }
    ensures obeys { Obeyed (command_of line.now) was
        file.old (lent_of mem.old cells.old figures.old) out.old
        result file.new (lent_of mem.new cells.new figures.new) out.new }
{
    match commands::parse(line) {
        Command::Plan(start) => take_plan(rt, was, &line[start..], file, out),
        Command::OpenRounded(asked) => take_cells(
            rt,
            was,
            asked,
            &line[asked.start..],
            file,
            mem,
            cells,
            figures,
            out,
        ),
        Command::Mark(JournalAt { workers, start }) => {
            take_journal(rt, was, workers, &line[start..], file, out)
        }
        Command::Quit => finish(was),
        Command::Open(_)
        | Command::Choose(_)
        | Command::Offer(_)
        | Command::Take(_)
        | Command::Figures
        | Command::Sum
        | Command::Ended
        | Command::Unknown => was,
    }
}

// The next line, of so many bytes, is the program's own.
fn own_line(
    rt: &HostRuntime,
    was: Console,
    size: usize,
    file: &mut [u8],
    mem: &mut [u16],
    cells: &mut [u32],
    figures: &mut [u32],
    buffer: &[u8],
    out: &mut [u8],
) -> Console
    requires held { Kept (length file.old) (length buffer.now) was }
    requires size_bound { was.input.at + size < was.input.end }
    ensures kept { Kept (length file.new) (length buffer.now) result }
    ensures obeys { Obeyed (command_of (take size (drop was.input.at buffer.now))) (console_from was (was.input.at + size + 1))
        file.old (lent_of mem.old cells.old figures.old) out.old
        result file.new (lent_of mem.new cells.new figures.new) out.new }
{
    let at = was.input.at;
    let stop = at + size;
    let next = Console {
        input: was.input.from(stop + 1),
        ..was
    };
    obey(rt, next, &buffer[at..stop], file, mem, cells, figures, out)
}

// What is left of the input, with no newline, where it is too long for a line: it is answered once, and passed over.
fn refuse_long(was: Console, out: &mut [u8]) -> Console
    requires { was.input.at ≤ was.input.end }
    ensures size { result.size ≡ was.size }
    ensures refuses { (result, out.new) ≡ refused_long was out.old }
{
    if was.input.end - was.input.at <= MOST_OF_LINE {
        return was;
    }
    Console {
        talk: Talk {
            sink: was.talk.sink.put(out, b"?\n"),
            ..was.talk
        },
        input: was.input.too_long(),
        ..was
    }
}

// No whole line is left: what is answered is written out, and more input is read, unless it has ended.
fn wait(stdin: Stdin, was: Console, buffer: &mut [u8], out: &mut [u8]) -> Console
    requires { Within (length buffer.old) was.input }
    ensures kept { (result.size ≡ was.size) × Within (length buffer.new) result.input }
    ensures waits { Waited was buffer.old out.old result buffer.new out.new }
{
    if was.input.ended {
        return finish(was);
    }
    let left = refuse_long(was, out);
    Console {
        talk: Talk {
            sink: left.talk.sink.flush(out),
            ..left.talk
        },
        input: input::read_more(stdin, left.input, buffer),
        ..left
    }
}

// The lines that were read are answered, up to one that is the program's own.
fn answer_lines(
    was: Console,
    file: &[u8],
    mem: &mut [u16],
    cells: &[u32],
    figures: &mut [u32],
    buffer: &[u8],
    out: &mut [u8],
) -> Console
    requires { Kept (length file.now) (length buffer.now) was }
    ensures kept { Kept (length file.now) (length buffer.now) result }
    ensures serves { Answered (whole was file.now (lent_of mem.old cells.now figures.old) buffer.now out.old) result
        (lent_of mem.new cells.now figures.new) out.new }
{
    let served = serving::serve(
        was.talk,
        was.input.pending(buffer),
        &file[..was.size],
        mem,
        cells,
        figures,
        out,
    );
    Console {
        talk: served.talk,
        input: was.input.from(was.input.at + served.at),
        ..was
    }
}

// Answers what was read; then there is a line that is the program's own, or more is to be read.
fn turn(
    rt: &HostRuntime,
    was: Console,
    file: &mut [u8],
    mem: &mut [u16],
    cells: &mut [u32],
    figures: &mut [u32],
    buffer: &mut [u8],
    out: &mut [u8],
) -> Console
    requires { Kept (length file.old) (length buffer.old) was }
    ensures kept { Kept (length file.new) (length buffer.new) result }
    ensures turns { Turned (whole was file.old (lent_of mem.old cells.old figures.old) buffer.old out.old)
        (whole result file.new (lent_of mem.new cells.new figures.new) buffer.new out.new) }
{
    let left = answer_lines(was, file, mem, cells, figures, buffer, out);
    match left.input.line_size(buffer) {
        Some(size) => own_line(rt, left, size, file, mem, cells, figures, buffer, out),
        None => wait(rt.stdin(), left, buffer, out),
    }
}

// The state of zeros without rounding, an empty plan file and no input.
fn begin(mem: &mut [u16]) -> Console
    ensures begins { result ≡ begun }
    ensures memory { mem.new ≡ mem.old }
{
    let none = opening::open(b"", 0, mem);
    Console {
        talk: Talk {
            run: rounding::without_rounding(none.state),
            lent: 0,
            sink: Sink::written(),
        },
        size: 0,
        input: Input::none(),
        done: false,
    }
}

// A proved loop has to end, and nothing says that the input does: so the loop counts its turns, up to a number that no input
// uses up.
fn run(
    rt: &HostRuntime,
    first: Console,
    file: &mut [u8],
    mem: &mut [u16],
    cells: &mut [u32],
    figures: &mut [u32],
    buffer: &mut [u8],
    out: &mut [u8],
) -> Console
    requires { Kept (length file.old) (length buffer.old) first }
    ensures { Turns (whole first file.old (lent_of mem.old cells.old figures.old) buffer.old out.old)
        (whole result file.new (lent_of mem.new cells.new figures.new) buffer.new out.new) }
{
    let mut now = first;
    for _ in 0..u64::MAX {
        now = turn(rt, now, file, mem, cells, figures, buffer, out);
        if now.done {
            break;
        }
    }
    now
}

// The buffer for plan files takes one byte more than the longest, and that for cells one cell more than a plan can have tokens, so that
// a longer file is seen to be longer.
fn main(rt: HostRuntime) {
    let mut file = [0u8; 32797];
    let mut mem = [0u16; 32768];
    let mut cells = [0u32; 4097];
    let mut figures = [0u32; 4097];
    let mut buffer = io::large_buffer();
    let mut out = io::large_buffer();
    let first = begin(&mut mem);
    let last = run(
        &rt,
        first,
        &mut file,
        &mut mem,
        &mut cells,
        &mut figures,
        &mut buffer,
        &mut out,
    );
    last.talk.sink.flush(&out);
}
