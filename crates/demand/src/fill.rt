// How the worktable fills up, row by row.
ghost use Rattle.std.specs.Prelude.{ℕ, ◌+◌, ◌*◌, ◌<◌, ◌≤◌, length, slice_index};
ghost use Rattle.demand.specs.Copied.{graph_of};
ghost use Rattle.demand.specs.Table.{Best, Rows, Spared};

use crate::filled::Filled;
use crate::local::{Local, ROW};

impl Local {
    // Fills the cells of row t, from the rows before it.
    fn fill_row(&self, before: &[u32], t: u32, row: &mut [u32])
        requires limit { t ≤ 20000 }
        requires cells { t * 24 ≤ length before.now }
        requires full { Rows (graph_of self.now) before.now t 0 }
        requires room { 24 ≤ length row.old }
        ensures row { (v : ℕ) → v < self.now.stops.used → Best (graph_of self.now) t (v + 1) (slice_index row.new v) }
        ensures spare { Spared 24 row.old row.new }
    {
        let filled = Filled {
            local: self,
            work: before,
            rows: t,
        };
        for (v, cell) in row[..self.stops.used].iter_mut().enumerate() {
            *cell = filled.best(v);
        }
    }

    // Fills every row up to the horizon.
    pub(crate) fn fill(&self, work: &mut [u32], horizon: u32)
        requires limit { horizon ≤ 20000 }
        requires cells { (horizon + 1) * 24 ≤ length work.old }
        ensures rows { Rows (graph_of self.now) work.new (horizon + 1) 0 }
        ensures spare { Spared ((horizon + 1) * 24) work.old work.new }
    {
        // Each row reads those before it, which no iterator over the rows lends at the same time.
        for t in 0..horizon + 1 {
            let first = t as usize * ROW;
            let (before, row) = work.split_at_mut(first);
            self.fill_row(before, t, row);
        }
    }
}
