// The totals: cell t holds the demand of all tasks in a window of t ticks.
ghost use Rattle.std.specs.Prelude.{◌≡◌, ℕ, ◌+◌, ◌<◌, ◌≤◌, min, length, MatchOption, slice_index};
ghost use Rattle.demand.specs.Copied.{graph_of};
ghost use Rattle.demand.specs.Judged.{Within, FirstOver};
ghost use Rattle.demand.specs.Table.{Grown, Spared};
ghost use Rattle.demand.specs.Full.{Full};

use crate::filled::Filled;

// How many of the cells of a slice stand up to the horizon.
fn cells_to(horizon: u32, len: usize) -> usize
    ensures { result ≡ min (horizon + 1) len }
{
    let cells = horizon as usize + 1;
    cells.min(len)
}

// Sets every total up to the horizon to 0.
pub fn clear(totals: &mut [u64], horizon: u32)
    ensures cleared { (t : ℕ) → t ≤ horizon → slice_index totals.new t ≡ 0 }
    ensures beyond { (t : ℕ) → horizon < t → slice_index totals.new t ≡ slice_index totals.old t }
{
    let cells = cells_to(horizon, totals.len());
    totals[..cells].fill(0);
}

// The least t up to the horizon whose total exceeds it, with that total.
pub fn first_over(totals: &[u64], horizon: u32) -> Option<(u32, u64)>
    ensures { MatchOption result (Within totals.now horizon) (λ x. FirstOver totals.now horizon x.0 × (slice_index totals.now x.0 ≡ x.1)) }
{
    for (t, total) in totals[..cells_to(horizon, totals.len())].iter().enumerate() {
        if *total > t as u64 {
            return Some((t as u32, *total));
        }
    }
    None
}

impl Filled<'_> {
    // Adds the greatest cell of every row to its total.
    pub(crate) fn add_to(&self, totals: &mut [u64])
        requires room { self.now.rows ≤ length totals.old }
        requires full { Full self.now }
        ensures grown { Grown (graph_of self.now.local.now) self.now.rows totals.old totals.new }
        ensures beyond { Spared self.now.rows totals.old totals.new }
    {
        for (t, total) in totals[..self.rows as usize].iter_mut().enumerate() {
            *total = total.saturating_add(u64::from(self.greatest(t as u32)));
        }
    }
}
