// Layers over any kind of task, which are kinds again.
// Each passes on itself the answers that it does not change: one generic layer would need a trait
// with laws for these two, which is longer than what is passed on.
ghost use Rattle.task.specs.Jobs.{EntryLists, ShareLists};
ghost use Rattle.task.specs.Kinds.{entry_graph, share_graph};
ghost use Rattle.task.specs.Lawful.{entry_lawful, share_lawful};
ghost use Rattle.task.specs.Following.{entered_follow, shared_follow};

use crate::checked::{EntryCost, Share};
use crate::interface::Task;

// Every release costs an entry cost more, up to the greatest cost.
#[derive(Clone, Copy)]
pub struct Entry<T> {
    pub below: T,
    pub entry: EntryCost,
}

impl<T: Task> Task for Entry<T> {
    ghost graph = { λ x. entry_graph x.entry.ticks (T.Task.graph x.below) };

    ghost lists = { λ x. EntryLists x.entry.ticks (T.Task.lists x.below) };

    ghost lawful = { λ x. entry_lawful x.entry.ticks (T.Task.graph x.below) (T.Task.lawful x.below) };

    ghost follows = { λ x k js o l. entered_follow (T.Task.graph x.below) k x.entry.ticks l.0 js (T.Task.follows x.below k l.0 o l.1) l.2 };

    fn places(&self) -> usize {
        self.below.places()
    }

    fn cost(&self, place: usize) -> u32 {
        if !self.below.has(place) {
            return 0;
        }
        let raised = self.below.cost(place) + u32::from(self.entry.ticks());
        raised.min(100_000)
    }

    fn deadline(&self, place: usize) -> u32 {
        self.below.deadline(place)
    }

    fn gap(&self, from: usize, to: usize) -> Option<u32> {
        self.below.gap(from, to)
    }
}

// Every job is due after a share of its deadline.
#[derive(Clone, Copy)]
pub struct Shared<T> {
    pub below: T,
    pub share: Share,
}

impl<T: Task> Task for Shared<T> {
    ghost graph = { λ x. share_graph x.share.thousandths (T.Task.graph x.below) };

    ghost lists = { λ x. ShareLists x.share.thousandths (T.Task.lists x.below) };

    ghost lawful = { λ x. share_lawful x.share.thousandths (T.Task.graph x.below) x.share.most (T.Task.lawful x.below) };

    ghost follows = { λ x k js o l. shared_follow (T.Task.graph x.below) k x.share.thousandths l.0 js o (T.Task.follows x.below k l.0 o l.1) l.2 };

    fn places(&self) -> usize {
        self.below.places()
    }

    fn cost(&self, place: usize) -> u32 {
        self.below.cost(place)
    }

    fn deadline(&self, place: usize) -> u32 {
        if !self.below.has(place) {
            return 0;
        }
        let whole = u64::from(self.below.deadline(place)) * u64::from(self.share.thousandths());
        ((whole / 1000) as u32).max(1)
    }

    fn gap(&self, from: usize, to: usize) -> Option<u32> {
        self.below.gap(from, to)
    }
}
