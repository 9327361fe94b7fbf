// A task's answers, each asked once.
ghost use Rattle.std.specs.Prelude.{◌≤◌};
ghost use Rattle.task.specs.Graph.{Lawful};
ghost use Rattle.demand.specs.Stops.{graph_on, lawful_prop};

use table::few::Few;

// The most places that a task may have: the cells of a row of the worktable.
pub(crate) const ROW: usize = 24;

// One place: its cost, its deadline, and the gap from it to each place.
#[derive(Clone, Copy)]
pub(crate) struct Stop {
    pub(crate) cost: u32,
    pub(crate) deadline: u32,
    pub(crate) gaps: [Option<u32>; ROW],
}

// Place p stands at p - 1.
#[derive(Drop)]
pub(crate) struct Local {
    pub(crate) stops: Few<Stop, ROW>,
    ghost lawful: { Lawful (graph_on stops.used stops.table) } by { lawful_prop (graph_on stops.used stops.table) },
}
