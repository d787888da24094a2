// The kinds of pipes.
ghost use Rattle.std.specs.Prelude.{◌≡◌};
ghost use Rattle.vocabulary.specs.PipeKinds.{full_of, kind_if, pipe_of};

use crate::Refusal;

#[derive(Clone, Copy, PartialEq, Eq)]
pub enum PipeKind {
    Serial,
    Parallel,
}

impl PipeKind {
    // The file bytes of the two kinds.
    pub const SERIAL_BYTE: u8 = 83;

    pub const PARALLEL_BYTE: u8 = 80;

    // The full values of their join counters.
    pub const SERIAL_FULL: u8 = 2;

    pub const PARALLEL_FULL: u8 = 1;

    // The full value of a join counter at a pipe of this kind.
    pub fn full(self) -> u8
        ensures { result ≡ full_of self }
    {
        match self {
            PipeKind::Serial => PipeKind::SERIAL_FULL,
            PipeKind::Parallel => PipeKind::PARALLEL_FULL,
        }
    }

    // The kind of a pipe that is serial, or is not. (No `From<bool>`: the name says what a flag that is set means.)
    pub fn from_flag(serial: bool) -> PipeKind
        ensures { result ≡ kind_if serial }
    {
        match serial {
            true => PipeKind::Serial,
            false => PipeKind::Parallel,
        }
    }
}

impl TryFrom<u8> for PipeKind {
    type Error = Refusal;

    ghost try_from_gives = { λ byte kind. kind ≡ pipe_of byte };

    // The kind that a file byte stands for.
    fn try_from(byte: u8) -> Result<Self, Refusal> {
        match byte {
            PipeKind::SERIAL_BYTE => Ok(PipeKind::Serial),
            PipeKind::PARALLEL_BYTE => Ok(PipeKind::Parallel),
            _ => Err(Refusal::Pipes),
        }
    }
}
