// The parts of the state at opening.
ghost use Rattle.std.specs.Prelude.{◌≡◌, map, ◌+◌, ◌≤◌, length};
ghost use Rattle.rules.specs.Choices.{opened_counter};
ghost use Rattle.vocabulary.specs.PipeKinds.{kind_of};
ghost use Rattle.loading.specs.Plans.{serial_of};
ghost use Rattle.opening.specs.Opened.{opened_counters, fresh_state};

use state::{COUNTERS, COUNTERS_OF_LINE, FLAGS, SLOTS, State};
use vocabulary::{Pipe, PipeKind, Place, Token, Worker};

// Which pipes are serial, by their file bytes.
pub(crate) fn serials(bytes: &[u8]) -> [bool; 16]
    requires { length bytes.now ≤ 16 }
    ensures { result ≡ serial_of (map kind_of bytes.now) }
{
    let mut serial = [false; FLAGS];
    for (p, byte) in bytes.iter().enumerate() {
        serial[p] = *byte == PipeKind::SERIAL_BYTE;
    }
    serial
}

// The counter of a line and pipe: line 0 pipe 0 has 0; pipe 0 of other lines 1; other pipes of line 0 have 1; the rest are full.
#[tactic(auto, using(rules::proofs::lists::Tests::tests), unfolding(rules::specs::Choices::opened_counter))]
fn counter(line: usize, pipe: usize, serial: bool) -> u8
    ensures { result ≡ opened_counter line pipe serial }
{
    match (line, pipe) {
        (0, 0) => 0,
        (0, _) | (_, 0) => 1,
        _ => PipeKind::from_flag(serial).full(),
    }
}

// All counters: those of the plan's lines and pipes, and 0 for the unused ones.
pub(crate) fn counters(serial: [bool; 16], pipes: usize, lines: usize) -> [u8; 512]
    requires { (pipes ≤ 16) × (lines ≤ 32) }
    ensures { result ≡ opened_counters serial pipes lines }
{
    let mut c = [0; COUNTERS];
    for line in 0..lines {
        for pipe in 0..pipes {
            c[COUNTERS_OF_LINE * line + pipe] = counter(line, pipe, serial[pipe]);
        }
    }
    c
}

// A state whose lines wait at pipe 0 and that has placed no token.
#[tactic(auto, unfolding(rules::specs::RunState::all_idle))]
pub(crate) fn fresh(
    pipes: u16,
    lines: u16,
    workers: u16,
    serial: [bool; 16],
    counters: [u8; 512],
    tokens: u16,
) -> State
    ensures { result ≡ fresh_state pipes lines workers serial counters tokens }
{
    State {
        pipes,
        lines,
        workers,
        serial,
        counters,
        at: [Pipe(0); SLOTS],
        running: [false; SLOTS],
        token: [Token(0); SLOTS],
        place: [Place(0); SLOTS],
        worker: [Worker(0); SLOTS],
        placed: 0,
        stopped: false,
        tables: tables::Tables {
            tokens,
            count: 0,
            first: 0,
            end: 0,
            held: 0,
        },
    }
}
