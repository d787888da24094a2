// Why a plan, an opening or a choice is refused.
ghost use Rattle.std.specs.Prelude.{◌≡◌};
ghost use Rattle.vocabulary.specs.Refusals.{number_of};

// A case for each number of document 01, and of document 02.
#[derive(Clone, Copy, PartialEq, Eq)]
pub enum Refusal {
    // 1: the file is below 12 or above 32,796 bytes
    FileSize,
    // 2: A + P + 12 differs from the file's length
    PartSizes,
    // 3: the edition is not 1, or P, L or N is beyond its range
    Limits,
    // 4: a pipe byte other than 83 or 80, or pipe 0 parallel
    Pipes,
    // 5: a record breaks the layout
    RecordLayout,
    // 6: a token lists itself
    ListsItself,
    // 7: the counts are above 8,192 together
    TotalCount,
    // 8: W is not 1 to 32
    Workers,
    // 9: fewer than 32,768 numbers are lent
    Memory,
    // 10: the line is L or more
    NoLine,
    // 11: the run has ended
    Ended,
    // 12: the line waits with a counter above 0
    Early,
    // 13: the line waits with counter 0, but the worker runs another line
    WorkerBusy,
    // 14: the state or the memory is spoiled
    Spoiled,
    // 16: the pipe that should round is absent or parallel
    RoundingPipe,
    // 17: the base is not 3 or 5
    Base,
    // 18: cells or figures are not N in number, or a cell is too large
    Lent,
    // 19: the line would not give the event that is handed
    OtherEvent,
    // 20: the rules' event differs from the one that is written in a journal
    JournalDiffers,
    // 26: the worker is W or more, or is not the one that runs the line
    WrongWorker,
}

impl Refusal {
    // The paper's number of a refusal.
    pub fn number(self) -> u16
        ensures { result ≡ number_of self }
    {
        match self {
            Refusal::FileSize => 1,
            Refusal::PartSizes => 2,
            Refusal::Limits => 3,
            Refusal::Pipes => 4,
            Refusal::RecordLayout => 5,
            Refusal::ListsItself => 6,
            Refusal::TotalCount => 7,
            Refusal::Workers => 8,
            Refusal::Memory => 9,
            Refusal::NoLine => 10,
            Refusal::Ended => 11,
            Refusal::Early => 12,
            Refusal::WorkerBusy => 13,
            Refusal::Spoiled => 14,
            Refusal::RoundingPipe => 16,
            Refusal::Base => 17,
            Refusal::Lent => 18,
            Refusal::OtherEvent => 19,
            Refusal::JournalDiffers => 20,
            Refusal::WrongWorker => 26,
        }
    }
}
