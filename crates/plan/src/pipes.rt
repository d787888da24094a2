// The pipe bytes.
ghost use Rattle.std.specs.Prelude.{◌≡◌};
ghost use Rattle.plan.specs.Pipes.{kinds_check, pipes_check};

use vocabulary::{PipeKind, Refusal};

// Each byte stands for a kind.
fn check_kinds(bytes: &[u8]) -> Result<(), Refusal>
    ensures { result ≡ kinds_check bytes.now }
{
    for byte in bytes {
        PipeKind::try_from(*byte)?;
    }
    Ok(())
}

// Each byte stands for a kind, and the first pipe is serial.
#[tactic(auto, unfolding(crate::specs::Pipes::pipes_check))]
pub(crate) fn check_pipes(bytes: &[u8]) -> Result<(), Refusal>
    ensures { result ≡ pipes_check bytes.now }
{
    match bytes {
        [PipeKind::SERIAL_BYTE, ..] => check_kinds(bytes),
        _ => Err(Refusal::Pipes),
    }
}
