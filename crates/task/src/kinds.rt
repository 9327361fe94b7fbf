// The kinds of task that need no engine.
ghost use Rattle.std.specs.Prelude.{◌≡◌, ◌≤◌, ◌&&◌, [], is_ok, MatchResult, nat_le};
ghost use Rattle.refusal.specs.declared.Refusal.TheVariants.{ValueLimits};
ghost use Rattle.task.specs.Jobs.{Timing};
ghost use Rattle.task.specs.Kinds.{empty_graph, timed_graph};
ghost use Rattle.task.specs.Lawful.{empty_lawful, timed_lawful};
ghost use Rattle.task.specs.Following.{none_follow, timing_follows};

use crate::checked::cost_right;
use crate::interface::Task;
use refusal::Refusal;

// The task that releases nothing.
#[derive(Clone, Copy)]
pub struct Empty;

impl Task for Empty {
    ghost graph = { λ _. empty_graph };

    ghost lists = { λ _ k js. js ≡ [] };

    ghost lawful = { λ _. empty_lawful };

    ghost follows = { λ x k js o l. none_follow _ k js l };

    fn places(&self) -> usize {
        0
    }

    fn cost(&self, _place: usize) -> u32 {
        0
    }

    fn deadline(&self, _place: usize) -> u32 {
        0
    }

    fn gap(&self, _from: usize, _to: usize) -> Option<u32> {
        None
    }
}

// The numbers of a timed task as a caller gives them, before they are checked.
#[derive(Clone, Copy, PartialEq, Eq, Debug)]
pub struct TimedParts {
    // the least time from release to release, in ticks
    pub period: u32,
    // the time from a release to its due tick, in ticks
    pub deadline: u32,
    // the greatest cost of a job, in ticks
    pub cost: u32,
}

// A task released at least a period apart: numbers that were found to be within their limits.
#[derive(Clone, Copy)]
pub struct Timed {
    parts: TimedParts,
    ghost period_most: { parts.period ≤ 100000000 },
    ghost deadline_least: { 1 ≤ parts.deadline },
    ghost deadline_most: { parts.deadline ≤ parts.period },
    ghost cost_least: { 1 ≤ parts.cost },
    ghost cost_most: { parts.cost ≤ 100000 },
}

impl Timed {
    // The shortest timed task.
    pub const LEAST: Timed = Timed {
        parts: TimedParts {
            period: 1,
            deadline: 1,
            cost: 1,
        },
    };

    // A timed task, or a refusal where a number is outside its limits.
    pub fn new(parts: TimedParts) -> Result<Timed, Refusal>
        ensures made { MatchResult result (λ c. c.parts ≡ parts) (λ e. e ≡ ValueLimits) }
        ensures when { is_ok result ≡ ((nat_le 1 parts.period && nat_le parts.period 100000000) && ((nat_le 1 parts.deadline && nat_le parts.deadline parts.period) && (nat_le 1 parts.cost && nat_le parts.cost 100000))) }
    {
        let in_time = (1..=100_000_000).contains(&parts.period)
            && (1..=parts.period).contains(&parts.deadline);
        if !in_time || !cost_right(parts.cost) {
            return Err(Refusal::ValueLimits);
        }
        Ok(Timed { parts })
    }

    // Changes the cost, or refuses one outside its limits.
    pub fn recost(&mut self, cost: u32) -> Result<(), Refusal>
        ensures when { is_ok result ≡ (nat_le 1 cost && nat_le cost 100000) }
        ensures done { MatchResult result (λ _. (self.new.parts.period ≡ self.old.parts.period) × (self.new.parts.deadline ≡ self.old.parts.deadline) × (self.new.parts.cost ≡ cost)) (λ e. (e ≡ ValueLimits) × (self.new ≡ self.old)) }
    {
        if !cost_right(cost) {
            return Err(Refusal::ValueLimits);
        }
        self.parts.cost = cost;
        Ok(())
    }
}

impl Task for Timed {
    ghost graph = { λ c. timed_graph c.parts.period c.parts.deadline c.parts.cost };

    ghost lists = { λ c k js. Timing k c.parts.period c.parts.deadline c.parts.cost js };

    ghost lawful = { λ c. timed_lawful c.parts.period c.parts.deadline c.parts.cost c.period_most c.deadline_least c.deadline_most c.cost_least c.cost_most };

    ghost follows = { λ x k js o l. timing_follows k x.parts.period x.parts.deadline x.parts.cost js l };

    fn places(&self) -> usize {
        1
    }

    fn cost(&self, place: usize) -> u32 {
        if place == 1 { self.parts.cost } else { 0 }
    }

    fn deadline(&self, place: usize) -> u32 {
        if place == 1 { self.parts.deadline } else { 0 }
    }

    fn gap(&self, from: usize, to: usize) -> Option<u32> {
        if from == 1 && to == 1 {
            Some(self.parts.period)
        } else {
            None
        }
    }
}
