// What rounding says of a choice before it is made: leave, or why it is refused if nothing else is against it.
ghost use Rattle.std.specs.Prelude.{◌≡◌, leb};
ghost use Rattle.rules.specs.Rounding.{sum_most, lent_count, sum_after};
ghost use Rattle.state.specs.Machines.{slots_of};
ghost use Rattle.rounding.specs.Roundings.{rounding_of};
ghost use Rattle.rounded.specs.Leaves.{passer_at, fits_by, leave_for};

use rounding::{Rounding, Run, SUM_MOST};
use state::{SLOTS, State};
use vocabulary::{Line, Refusal};

// How many cells and figures are lent: none without rounding.
#[tactic(auto, using(crate::proofs::LeaveLaws::count_none, crate::proofs::LeaveLaws::count_all))]
fn lent_count(rounding: Rounding, tokens: u16) -> u16
    ensures { result ≡ lent_count tokens (rounding_of rounding) }
{
    if rounding.base == 0 { 0 } else { tokens }
}

// Whether there are as many cells and figures as there should be, and no cell is too large.
#[tactic(auto, unfolding(crate::specs::Leaves::fits_by))]
fn fits(rounding: Rounding, tokens: u16, cells: &[u32], figures: usize) -> bool
    ensures { result ≡ fits_by tokens (rounding_of rounding) cells.now figures }
{
    rounding::lent_fits(usize::from(lent_count(rounding, tokens)), cells, figures)
}

// Whether T stays within its limit if the line acts. (A row is copied before it is indexed, which saves a copy of the state.)
#[tactic(auto, using(crate::proofs::LeaveLaws::passer_runs, crate::proofs::LeaveLaws::passer_waits, crate::proofs::LeaveLaws::passer_out), unfolding(rules::specs::RunState::slot_at))]
fn stays(rounding: Rounding, state: State, cells: &[u32], line: Line) -> bool
    ensures { result ≡ leb (sum_after (rounding_of rounding) cells.now (passer_at (rounding_of rounding) (slots_of state) line.0)) sum_most }
{
    let l = usize::from(line.0);
    if l < SLOTS {
        let running = state.running;
        if running[l] {
            let at = state.at;
            let tokens = state.token;
            return rounding::stays(rounding, at[l], tokens[l], cells);
        }
    }
    rounding.sum <= SUM_MOST
}

// Of a run, with what is lent, and the line that is named.
#[tactic(auto, using(crate::proofs::LeaveLaws::leave_unfit, crate::proofs::LeaveLaws::leave_past, crate::proofs::LeaveLaws::leave_given))]
pub(crate) fn leave_for(run: Run, cells: &[u32], figures: usize, line: Line) -> Result<(), Refusal>
    ensures { result ≡ leave_for run cells.now figures line.0 }
{
    let rounding = run.rounding;
    let state = run.state;
    if !fits(rounding, state.tables.tokens, cells, figures) {
        return Err(Refusal::Lent);
    }
    if !stays(rounding, state, cells, line) {
        return Err(Refusal::Spoiled);
    }
    Ok(())
}
