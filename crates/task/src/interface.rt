// The one interface through which a task is known.
ghost use Rattle.std.specs.Prelude.{◌≡◌, ℕ, ◌≤◌, List};
ghost use Rattle.task.specs.Graph.{Graph, Lawful, is_place};
ghost use Rattle.task.specs.Jobs.{Job, Follows};

// A task: places counted from 1, each with a cost and a deadline, and gaps from place to place.
// For a place that it lacks it answers cost 0, deadline 0 and no gap. Every list of jobs that it
// may release follows these answers: each job has a place, asks at most its cost, is due no sooner
// than its deadline, and the next job comes at least a gap later.
pub trait Task {
    // what the answers say, taken together
    ghost graph: { Self → Graph };

    // what the task means: the job lists that it may release, for every fineness k, times and
    // costs in k-ths of a tick
    ghost lists: { Self → ℕ → List Job → Type 0 };

    // How many places there are, 0 to 24.
    fn places(&self) -> usize
        ensures { result ≡ (graph self.now).places };

    // The greatest cost of a job at this place, in ticks.
    fn cost(&self, place: usize) -> u32
        ensures { result ≡ (graph self.now).cost place };

    // The least time from a release at this place to its due tick.
    fn deadline(&self, place: usize) -> u32
        ensures { result ≡ (graph self.now).deadline place };

    // The least time from a release at one place to the next release at the other.
    fn gap(&self, from: usize, to: usize) -> Option<u32>
        ensures { result ≡ (graph self.now).gap from to };

    // Whether the task has this place.
    fn has(&self, place: usize) -> bool
        ensures { result ≡ is_place (graph self.now) place }
    {
        (1..=self.places()).contains(&place)
    }

    // a law: these answers keep the limits of the interface
    ghost lawful: { (x : Self) → Lawful (graph x) };

    // a law: every list of jobs that the task may release follows these answers
    ghost follows: { (x : Self) (k : ℕ) (js : List Job) → 1 ≤ k → lists x k js → Follows (graph x) k js };
}
