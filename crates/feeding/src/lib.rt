// Choices fed to a session: each moves the run on, and its answer is printed. Nothing here trusts its caller.
#![tactic(auto)]

ghost use Rattle.std.specs.Prelude.{◌≡◌};
ghost use Rattle.rules.specs.Choices.{choices_in, choose as chosen_by, answers, follow};
ghost use Rattle.tables.specs.Calls.{memory_source};
ghost use Rattle.state.specs.Machines.{machine_of};
ghost use Rattle.sink.specs.Sinks.{put_each};
ghost use Rattle.printing.specs.Texts.{answer_texts};
ghost use Rattle.feeding.specs.Printed.{lines_of};

use session::Session;
use vocabulary::{Line, Worker};

// One choice: the worker moves the line on, and the answer is printed.
#[tactic(auto, unfolding(engine::specs::Machines::chosen_of))]
pub fn choose(session: Session, worker: u8, line: u8, mem: &mut [u16], out: &mut [u8]) -> Session
    ensures run { machine_of result.state mem.new ≡ (chosen_by memory_source (machine_of session.state mem.old) worker line).machine }
    ensures output { (result.sink, out.new) ≡
        put_each (session.sink, out.old) (answer_texts (chosen_by memory_source (machine_of session.state mem.old) worker line).answer) }
{
    let worker = Worker(u16::from(worker));
    let line = Line(u16::from(line));
    let chosen = engine::choose(session.state, mem, worker, line);
    Session {
        state: chosen.state,
        sink: printing::put_answer(session.sink, out, chosen.answer),
    }
}

// Each two bytes are a choice, the worker and then the line; a lone last byte is ignored. A refused choice prints its number, and the
// run goes on.
#[tactic(auto, using(crate::proofs::Choices::choices_turn, crate::proofs::Choices::choices_end, sink::proofs::Putting::each_append), unfolding(rules::specs::Choices::follow, rules::specs::Choices::answers, sink::specs::Sinks::put_each, crate::specs::Printed::lines_of))]
pub fn feed(session: Session, choices: &[u8], mem: &mut [u16], out: &mut [u8]) -> Session
    ensures run { machine_of result.state mem.new ≡ follow memory_source (machine_of session.state mem.old) (choices_in choices.now) }
    ensures output { (result.sink, out.new) ≡
        put_each (session.sink, out.old) (lines_of (answers memory_source (machine_of session.state mem.old) (choices_in choices.now))) }
{
    let mut now = session;
    let mut left = choices;
    while let [worker, line, rest @ ..] = left {
        now = choose(now, *worker, *line, mem, out);
        left = rest;
    }
    now
}
