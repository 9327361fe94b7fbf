// Asks a task for its answers, each of them once.
ghost use Rattle.std.specs.Prelude.{◌≡◌, ℕ, ◌+◌, ◌<◌, ◌≤◌, slice_index_or};
ghost use Rattle.demand.specs.Copied.{graph_of};
ghost use Rattle.demand.specs.Stops.{StopOf, no_stop};

use crate::local::{Local, ROW, Stop};
use table::few::Few;
use task::interface::Task;

impl Stop {
    // What stands where a task lacks the place.
    const NONE: Stop = Stop {
        cost: 0,
        deadline: 0,
        gaps: [None; ROW],
    };

    // Asks the task for one place, and for its gap to each of the places.
    fn ask<T: Task>(&mut self, task: &T, places: usize, place: usize)
        requires { places ≤ 24 }
        ensures { StopOf (T.Task.graph task.now) places place self.new }
    {
        self.cost = task.cost(place);
        self.deadline = task.deadline(place);
        for (u, gap) in self.gaps[..places].iter_mut().enumerate() {
            *gap = task.gap(place, u + 1);
        }
    }

    // Asks the task for all its places.
    fn all<T: Task>(task: &T, places: usize) -> [Stop; ROW]
        requires { places ≤ 24 }
        ensures { (v : ℕ) → v < places → StopOf (T.Task.graph task.now) places (v + 1) (slice_index_or result v no_stop) }
    {
        // In place, and only the places that there are: a stop handed over would be copied.
        let mut stops = [Stop::NONE; ROW];
        for (v, stop) in stops[..places].iter_mut().enumerate() {
            stop.ask(task, places, v + 1);
        }
        stops
    }
}

impl Local {
    // Asks the task for all that it tells.
    pub(crate) fn of<T: Task>(task: &T) -> Local
        ensures { graph_of result ≡ T.Task.graph task.now }
    {
        let places = task.places();
        Local {
            stops: Few {
                table: Stop::all(task, places),
                used: places,
            },
        }
    }

    // The place at v.
    pub(crate) fn stop(&self, v: usize) -> &Stop
        requires { v < self.now.stops.used }
        ensures { StopOf (graph_of self.now) self.now.stops.used (v + 1) result.now }
    {
        &self.stops.table[v]
    }
}
