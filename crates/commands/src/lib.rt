// The console's commands: what a line asks for.
#![tactic(auto)]

mod numbers;
mod opening;
mod taking;

ghost use Rattle.std.specs.Prelude.{◌≡◌, ◌+◌, ◌≤◌, length};
ghost use Rattle.commands.specs.Arguments.{words_in};
ghost use Rattle.commands.specs.Commands.{alone_of, is_path, plan_of, choice_in, mark_of, arguments_of, asked_of, command_of};

use vocabulary::{Event, Line, Pipe, Worker};

// A choice names a worker and a line.
#[derive(Clone, Copy)]
pub struct Choice {
    pub worker: Worker,
    pub line: Line,
}

// A run to open with rounding: its workers, the pipe that rounds and its base, and the start of the path of its cells.
#[derive(Clone, Copy)]
pub struct RoundingAt {
    pub workers: u16,
    pub pipe: Pipe,
    pub base: u16,
    pub start: usize,
}

// A journal to mark: the workers of its run, and the start of its path.
#[derive(Clone, Copy)]
pub struct JournalAt {
    pub workers: u16,
    pub start: usize,
}

// A path is told by its start in the line; it is the rest of the line.
#[derive(Clone, Copy)]
pub enum Command {
    Plan(usize),
    Open(u16),
    OpenRounded(RoundingAt),
    Choose(Choice),
    Offer(Choice),
    Take(Event),
    Mark(JournalAt),
    Figures,
    Sum,
    Ended,
    Quit,
    Unknown,
}

// The most bytes of a path, and of a line.
const MOST_OF_PATH: usize = 4095;

pub const MOST_OF_LINE: usize = 8191;

// A command of one word.
#[tactic(auto, unfolding(crate::specs::Commands::alone_of))]
fn alone(word: &[u8]) -> Option<Command>
    ensures { result ≡ alone_of word.now }
{
    if words::same(word, b"figures") {
        Some(Command::Figures)
    } else if words::same(word, b"sum") {
        Some(Command::Sum)
    } else if words::same(word, b"ended") {
        Some(Command::Ended)
    } else if words::same(word, b"quit") {
        Some(Command::Quit)
    } else {
        None
    }
}

// Whether a text can be a path.
#[tactic(auto, unfolding(crate::specs::Commands::is_path, rules::specs::Lists::within))]
fn is_path(text: &[u8]) -> bool
    ensures { result ≡ is_path text.now }
{
    (1..=MOST_OF_PATH).contains(&text.len())
}

// `plan PATH`
#[tactic(auto, unfolding(crate::specs::Commands::plan_of))]
fn plan_of(path: &[u8], start: usize) -> Option<Command>
    ensures { result ≡ plan_of start path.now }
{
    is_path(path).then_some(Command::Plan(start))
}

// A worker and a line.
#[tactic(auto, unfolding(crate::specs::Commands::choice_in))]
fn read_choice(text: &[u8]) -> Option<Choice>
    ensures { result ≡ choice_in (words_in text.now) }
{
    let two = numbers::read_pair(text)?;
    Some(Choice {
        worker: Worker(two.first),
        line: Line(two.second),
    })
}

// W and PATH, as `mark W PATH` has them.
#[tactic(auto, using(crate::proofs::Paths::mark_read, crate::proofs::Paths::mark_unread))]
fn read_journal(text: &[u8], start: usize) -> Option<JournalAt>
    requires { start + length text.now ≤ 8191 }
    ensures { result ≡ mark_of start text.now }
{
    let path = numbers::behind_word(text);
    if !is_path(path) {
        return None;
    }
    let workers = words::read_first(text, b' ')?;
    Some(JournalAt {
        workers,
        start: start + (text.len() - path.len()),
    })
}

// A command with arguments: its first word, and the rest of the line, which starts there.
#[tactic(auto, unfolding(crate::specs::Commands::arguments_of))]
fn with_arguments(word: &[u8], start: usize, rest: &[u8]) -> Option<Command>
    requires { start + length rest.now ≤ 8191 }
    ensures { result ≡ arguments_of word.now start rest.now }
{
    if words::same(word, b"plan") {
        plan_of(rest, start)
    } else if words::same(word, b"open") {
        opening::open_of(rest, start)
    } else if words::same(word, b"choose") {
        read_choice(rest).map(Command::Choose)
    } else if words::same(word, b"offer") {
        read_choice(rest).map(Command::Offer)
    } else if words::same(word, b"take") {
        taking::read_event(rest).map(Command::Take)
    } else if words::same(word, b"mark") {
        read_journal(rest, start).map(Command::Mark)
    } else {
        None
    }
}

// The command that a line is.
#[tactic(auto, using(crate::proofs::Lines::asked_long, crate::proofs::Lines::asked_alone, crate::proofs::Lines::asked_arguments, crate::proofs::Lines::space_within))]
fn read(line: &[u8]) -> Option<Command>
    ensures { result ≡ asked_of line.now }
{
    if MOST_OF_LINE < line.len() {
        return None;
    }
    let Some(end) = words::first(line, b' ') else {
        return alone(line);
    };
    let start = end + 1;
    with_arguments(&line[..end], start, &line[start..])
}

// What a line asks for.
#[tactic(auto, unfolding(crate::specs::Commands::command_of))]
pub fn parse(line: &[u8]) -> Command
    ensures { result ≡ command_of line.now }
{
    read(line).unwrap_or(Command::Unknown)
}
