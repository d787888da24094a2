// A checksum of a run's answers, that any language has in a line.
ghost use Rattle.std.specs.Prelude.{◌≡◌, ◌+◌, ◌*◌, ◌<◌};
ghost use Rattle.rules.specs.Answers.{answer_of};
ghost use Rattle.whole_run.specs.Checksums.{step_value, stop_value, value_of, mixed};

use vocabulary::{Event, Refusal, Step, Stop};

const MODULUS: u64 = 2199023255552;

const BASE: u64 = 1000003;

// The numbers of a start or a finish as one.
#[tactic(auto, unfolding(crate::specs::Checksums::step_value))]
fn step_value(step: Step) -> u64
    ensures same { result ≡ step_value step.line.0 step.pipe.0 step.token.0 step.place.0 step.worker.0 }
    ensures small { result < 4504699424473088 }
{
    let line = u64::from(step.line.0);
    let pipe = u64::from(step.pipe.0);
    let token = u64::from(step.token.0);
    let place = u64::from(step.place.0);
    let worker = u64::from(step.worker.0);
    4 * line + 256 * pipe + 4096 * token + 16777216 * place + 68719476736 * worker
}

// Those of a stop.
#[tactic(auto, unfolding(crate::specs::Checksums::stop_value))]
fn stop_value(stop: Stop) -> u64
    ensures same { result ≡ stop_value stop.line.0 stop.worker.0 }
    ensures small { result < 4504699424473087 }
{
    4 * u64::from(stop.line.0) + 68719476736 * u64::from(stop.worker.0)
}

// An answer as one number.
#[tactic(auto, using(crate::proofs::Summing::value_started, crate::proofs::Summing::value_finished, crate::proofs::Summing::value_stopped))]
fn value(answer: Result<Event, Refusal>) -> u64
    ensures same { result ≡ value_of (answer_of answer) }
    ensures small { result < 4504699424473089 }
{
    match answer {
        Ok(Event::Started(step)) => step_value(step),
        Ok(Event::Finished(step)) => step_value(step) + 1,
        Ok(Event::Stopped(stop)) => stop_value(stop) + 2,
        Err(why) => 4 * u64::from(why.number()) + 3,
    }
}

// The checksum with one more answer.
#[tactic(auto, unfolding(crate::specs::Checksums::mixed))]
pub fn add(sum: u64, answer: Result<Event, Refusal>) -> u64
    ensures { result ≡ mixed sum (value_of (answer_of answer)) }
{
    let sum = sum % MODULUS;
    (sum * BASE + value(answer)) % MODULUS
}
