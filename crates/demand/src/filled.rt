// The worktable: row t, column v holds the greatest demand of a walk that starts at place v + 1 and
// is inside t.
ghost use Rattle.std.specs.Prelude.{◌≡◌, ◌*◌, ◌≤◌, ◌&&◌, ◌==◌, length, position, nat_lt, All, Contains};

use crate::local::{Local, ROW};

// A worktable and how many of its rows are filled. The number stands beside the cells, since they
// are lent, and may be more than the rows.
#[derive(Drop)]
pub(crate) struct Filled<'a> {
    pub(crate) local: &'a Local,
    pub(crate) work: &'a [u32],
    pub(crate) rows: u32,
    ghost limit: { rows ≤ 20001 },
    ghost cells: { rows * 24 ≤ length work.now },
}

// The greatest of some cells, 0 where there is none.
fn greatest_of(cells: &[u32]) -> u32
    ensures bounds { All (λ cell. cell ≤ result) cells.now }
    ensures reached { 1 ≤ result → Contains cells.now result }
{
    cells.iter().copied().max().unwrap_or(0)
}

// Where the first cell stands that holds so much, if that is not 0.
fn place_of(cells: &[u32], greatest: u32) -> Option<usize>
    ensures { result ≡ position (λ cell. nat_lt 0 cell && (cell == greatest)) cells.now }
{
    cells.iter().position(|cell| 0 < *cell && *cell == greatest)
}

// `Full` stays a clause of the methods: as a ghost field it would be a fact with at most one proof,
// and the walk that it names could not be taken out of such a fact for `Greatest`. That a place or a
// row is in bounds is said of the number passed: a type for it would have to hold the table.
impl Filled<'_> {
    ghost use Rattle.std.specs.Prelude.{◌≡◌, ℕ, ◌+◌, ◌*◌, ◌<◌, ◌≤◌, length, slice_index, MatchOption};
    ghost use Rattle.task.specs.Walks.{Greatest};
    ghost use Rattle.demand.specs.Copied.{graph_of};
    ghost use Rattle.demand.specs.Table.{Best, Rest, Firsts, Nexts, cell_at};
    ghost use Rattle.demand.specs.Full.{Full};

    // The greatest demand of a walk that this place can go on with, inside the next row's t.
    fn rest_after(&self, v: usize) -> u32
        requires place { v < self.now.local.now.stops.used }
        requires full { Full self.now }
        ensures { Rest (graph_of self.now.local.now) self.now.rows (v + 1) self.now.local.now.stops.used result }
    {
        let t = self.rows;
        let stop = self.local.stop(v);
        let mut rest: u32 = 0;
        for (u, gap) in stop.gaps[..self.local.stops.used].iter().enumerate() {
            if let Some(gap) = *gap
                && gap <= t
            {
                rest = rest.max(self.row(t - gap)[u]);
            }
        }
        rest
    }

    // The cell of the next row at this place.
    pub(crate) fn best(&self, v: usize) -> u32
        requires place { v < self.now.local.now.stops.used }
        requires full { Full self.now }
        ensures { Best (graph_of self.now.local.now) self.now.rows (v + 1) result }
    {
        let stop = self.local.stop(v);
        if stop.deadline > self.rows {
            return 0;
        }
        stop.cost + self.rest_after(v)
    }

    // The cells of row t.
    fn row(&self, t: u32) -> &[u32]
        requires { t < self.now.rows }
        ensures count { length result.now ≡ self.now.local.now.stops.used }
        ensures cells { (v : ℕ) → v < self.now.local.now.stops.used → slice_index result.now v ≡ cell_at self.now.work.now t v }
    {
        let first = t as usize * ROW;
        &self.work[first..first + self.local.stops.used]
    }

    // The greatest cell of row t.
    pub(crate) fn greatest(&self, t: u32) -> u32
        requires row { t < self.now.rows }
        requires full { Full self.now }
        ensures { Greatest (graph_of self.now.local.now) t result }
    {
        greatest_of(self.row(t))
    }

    // The first place where the greatest cell of row t stands; none where no walk is inside t.
    pub(crate) fn first_place(&self, t: u32, greatest: u32) -> Option<usize>
        requires row { t < self.now.rows }
        requires full { Full self.now }
        requires greatest { Greatest (graph_of self.now.local.now) t greatest }
        ensures { MatchOption result (greatest ≡ 0) (λ v. (1 ≤ greatest) × Firsts (graph_of self.now.local.now) self.now.work.now t v greatest) }
    {
        place_of(self.row(t), greatest)
    }

    // Where a greatest walk from this place, with so much time left, goes on, and after what gap.
    pub(crate) fn next_place(&self, left: u32, v: usize) -> Option<(usize, u32)>
        requires place { v < self.now.local.now.stops.used }
        requires row { left < self.now.rows }
        requires full { Full self.now }
        requires starts { 1 ≤ cell_at self.now.work.now left v }
        ensures { MatchOption result (cell_at self.now.work.now left v ≡ (graph_of self.now.local.now).cost (v + 1)) (λ x. Nexts (graph_of self.now.local.now) self.now.work.now left v x.0 x.1) }
    {
        let stop = self.local.stop(v);
        let rest = self.row(left)[v] - stop.cost;
        if rest == 0 {
            return None;
        }
        for (u, gap) in stop.gaps[..self.local.stops.used].iter().enumerate() {
            if let Some(gap) = *gap
                && gap <= left
                && self.row(left - gap)[u] == rest
            {
                return Some((u, gap));
            }
        }
        None
    }
}
