// Tells one walk that has the greatest demand of a window, job by job.
ghost use Rattle.std.specs.Prelude.{◌≡◌, ◌+◌, ◌*◌, ◌<◌, ◌≤◌, length, MatchResult};
ghost use Rattle.refusal.specs.Numbers.{refusal_in};
ghost use Rattle.demand.specs.Copied.{graph_of};
ghost use Rattle.demand.specs.Table.{Spared, cell_at};
ghost use Rattle.demand.specs.Full.{Full};
ghost use Rattle.demand.specs.Told.{walk_refusal, Tells, WalkTold};

use crate::check_memory;
use crate::filled::Filled;
use crate::local::Local;
use refusal::Refusal;
use task::interface::Task;

// One job of a told walk.
#[derive(Clone, Copy, PartialEq, Eq, Debug)]
pub struct ToldJob {
    pub place: u32,
    pub release: u32,
    pub cost: u32,
    pub due: u32,
}

// How many jobs were told, and their demand: none and 0 where there is no walk, so that demands add
// up as they are. The jobs themselves stand in the memory that was lent for them.
#[derive(Clone, Copy, PartialEq, Eq, Debug)]
pub struct Told {
    pub count: u32,
    pub demand: u32,
}

impl Filled<'_> {
    // Writes the jobs of a greatest walk from this place, inside the window, and says how many there
    // are.
    fn put_jobs(&self, window: u32, first: usize, jobs: &mut [ToldJob]) -> u32
        requires place { first < self.now.local.now.stops.used }
        requires row { window < self.now.rows }
        requires room { window ≤ length jobs.old }
        requires full { Full self.now }
        requires starts { 1 ≤ cell_at self.now.work.now window first }
        ensures { WalkTold (graph_of self.now.local.now) window jobs.old jobs.new result (cell_at self.now.work.now window first) }
    {
        let mut v = first;
        let mut left = window;
        let mut count: u32 = 0;
        // The walk ends before the list does, so a `for` over the jobs would be no plainer: its end is
        // never reached, and would still need an answer.
        loop {
            let stop = self.local.stop(v);
            let release = window - left;
            jobs[count as usize] = ToldJob {
                place: v as u32 + 1,
                release,
                cost: stop.cost,
                due: release + stop.deadline,
            };
            count += 1;
            match self.next_place(left, v) {
                Some((u, gap)) => {
                    v = u;
                    left -= gap;
                }
                None => return count,
            }
        }
    }
}

// Writes the jobs of a walk that has the greatest demand of the window: the first is released at 0,
// and each other its gap after the one before. The worktable is written over.
pub fn greatest_walk<T: Task>(
    task: &T,
    window: u32,
    work: &mut [u32],
    jobs: &mut [ToldJob],
) -> Result<Told, Refusal>
    ensures refusal { refusal_in result ≡ walk_refusal window (length work.old) (length jobs.old) }
    ensures told { MatchResult result (λ x. Tells (T.Task.graph task.now) window jobs.old jobs.new x.count x.demand) (λ _. (work.new ≡ work.old) × (jobs.new ≡ jobs.old)) }
    ensures spare { Spared (24 * (window + 1)) work.old work.new }
{
    check_memory(window, work.len(), jobs.len(), window as usize)?;
    let local = Local::of(task);
    local.fill(work, window);
    let filled = Filled {
        local: &local,
        work,
        rows: window + 1,
    };
    let demand = filled.greatest(window);
    let count = match filled.first_place(window, demand) {
        Some(first) => filled.put_jobs(window, first, jobs),
        None => 0,
    };
    Ok(Told { count, demand })
}
