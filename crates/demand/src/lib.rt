#![tactic(auto)]
// The greatest demand of every window length, for one task and in total.
ghost use Rattle.std.specs.Prelude.{◌≡◌, length, MatchResult};
ghost use Rattle.refusal.specs.Numbers.{refusal_in};
ghost use Rattle.demand.specs.Judged.{memory_refusal, lent_refusal, Added};

mod copy;
mod fill;
mod filled;
mod local;
mod totals;
mod walk;

use crate::filled::Filled;
use crate::local::{Local, ROW};
pub use crate::totals::{clear, first_over};
pub use crate::walk::{Told, ToldJob, greatest_walk};
use refusal::Refusal;
use task::interface::Task;

// Whether a horizon, a lent worktable and a lent list of so many cells will do.
pub(crate) fn check_memory(
    horizon: u32,
    work: usize,
    list: usize,
    cells: usize,
) -> Result<(), Refusal>
    ensures { refusal_in result ≡ memory_refusal horizon work list cells }
{
    if !(1..=20_000).contains(&horizon) {
        return Err(Refusal::HorizonLimits);
    }
    if work < ROW * (horizon as usize + 1) || list < cells {
        return Err(Refusal::ShortMemory);
    }
    Ok(())
}

// Whether a horizon and lent memory will do for a judging.
pub fn check_lent(horizon: u32, work: usize, totals: usize) -> Result<(), Refusal>
    ensures { refusal_in result ≡ lent_refusal horizon work totals }
{
    check_memory(horizon, work, totals, horizon as usize + 1)
}

// Adds a task's greatest demand at every t up to the horizon to the totals.
pub fn add<T: Task>(
    task: &T,
    horizon: u32,
    work: &mut [u32],
    totals: &mut [u64],
) -> Result<(), Refusal>
    ensures refusal { refusal_in result ≡ lent_refusal horizon (length work.old) (length totals.old) }
    ensures added { MatchResult result (λ _. Added (T.Task.graph task.now) horizon work.old work.new totals.old totals.new) (λ _. (work.new ≡ work.old) × (totals.new ≡ totals.old)) }
{
    check_lent(horizon, work.len(), totals.len())?;
    let local = Local::of(task);
    local.fill(work, horizon);
    let filled = Filled {
        local: &local,
        work,
        rows: horizon + 1,
    };
    filled.add_to(totals);
    Ok(())
}
