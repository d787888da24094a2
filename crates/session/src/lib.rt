// A run of document 01's program on byte slices, between reading its input and writing its output: how it begins and how it ends.
// Its choices are fed by the crate `feeding`. Nothing here trusts its caller.
#![tactic(auto)]

ghost use Rattle.std.specs.Prelude.{◌≡◌, is_ok};
ghost use Rattle.opening.specs.Opened.{open_of};
ghost use Rattle.state.specs.Ending.{ended_of};
ghost use Rattle.sink.specs.Sinks.{put_each};
ghost use Rattle.session.specs.Begun.{is_accepted, session_of};
ghost use Rattle.session.specs.Printed.{opening_texts, closing_texts};

use printing::Sink;
use state::State;

// A run, and where its output goes.
#[derive(Clone, Copy)]
pub struct Session {
    pub state: State,
    pub sink: Sink,
}

// Opens a plan for so many workers. A refused opening prints its number only, and its session has a state of zeros.
#[tactic(auto, unfolding(sink::specs::Sinks::put_each, crate::specs::Printed::opening_texts))]
pub fn begin(
    file: &[u8],
    workers: u8,
    mem: &mut [u16],
    sink: Sink,
    out: &mut [u8],
) -> Result<Session, Session>
    ensures answer { is_ok result ≡ is_accepted (open_of file.now workers mem.old).0.answer }
    ensures state { (session_of result).state ≡ (open_of file.now workers mem.old).0.state }
    ensures memory { mem.new ≡ (open_of file.now workers mem.old).1 }
    ensures output { ((session_of result).sink, out.new) ≡
        put_each (sink, out.old) (opening_texts (open_of file.now workers mem.old).0.answer) }
{
    let opened = opening::open(file, u16::from(workers), mem);
    let state = opened.state;
    match opened.answer {
        Ok(()) => Ok(Session { state, sink }),
        Err(why) => Err(Session {
            state,
            sink: printing::put_refusal(sink, out, why),
        }),
    }
}

// The last line: whether the run has ended.
#[tactic(auto, unfolding(sink::specs::Sinks::put_each, crate::specs::Printed::closing_texts))]
pub fn close(session: Session, out: &mut [u8]) -> Sink
    ensures { (result, out.new) ≡ put_each (session.sink, out.old) (closing_texts (ended_of session.state)) }
{
    if state::ended(session.state) {
        session.sink.put(out, b"E\n")
    } else {
        session.sink.put(out, b"O\n")
    }
}
