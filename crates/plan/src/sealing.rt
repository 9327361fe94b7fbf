// Sealing a draft, and the calls of a sealed plan.
ghost use Rattle.std.specs.Prelude.{◌≡◌, ◌+◌, ◌*◌, length, MatchResult};
ghost use Rattle.refusal.specs.Numbers.{refusal_in};
ghost use Rattle.demand.specs.Told.{Tells};
ghost use Rattle.deck.specs.Cards.{cards_of};
ghost use Rattle.deck.specs.EveryRun.{FitsEveryRunAlone};
ghost use Rattle.demand.specs.Table.{Spared};
ghost use Rattle.deck.specs.Telling.{tell_refused, task_at};
ghost use Rattle.plan.specs.Standing.{stands, sealed_stands};
ghost use Rattle.plan.specs.History as calls;
ghost use Rattle.plan.specs.EveryHistory.{SealedCarries, SealCarries};

use crate::drafted::Draft;
use crate::sealed::Sealed;
use demand::{Told, ToldJob};
use refusal::Refusal;
use task::interface::Task;

impl Draft {
    // Uses the draft up and gives the sealed plan: the same engine, cards and mark.
    pub fn seal(self) -> Sealed
        ensures same { sealed_stands result ≡ stands self }
        ensures history { SealCarries (stands self) (sealed_stands result) }
    {
        let Draft { deck, mark } = self;
        Sealed { deck, mark }
    }
}

impl Sealed {
    // The horizon to which the plan was judged to fit: up to it no window demands more than its
    // length, on any run.
    pub fn mark(&self) -> u32
        ensures value { result ≡ (sealed_stands self.now).mark }
        ensures runs { FitsEveryRunAlone (cards_of self.now.deck) result }
        ensures history { SealedCarries (sealed_stands self.now) (calls.marking result) }
    {
        self.mark
    }

    // Tells a walk that has the greatest demand of the window, of the card of this number or, for
    // 0, of the guest. The worktable is written over.
    pub fn tell<G: Task>(
        &self,
        guest: &G,
        number: u8,
        window: u32,
        work: &mut [u32],
        jobs: &mut [ToldJob],
    ) -> Result<Told, Refusal>
        ensures refusal { refusal_in result ≡ tell_refused (cards_of self.now.deck) number window (length work.old) (length jobs.old) }
        ensures told { MatchResult result (λ x. Tells (task_at (cards_of self.now.deck) (G.Task.graph guest.now) number) window jobs.old jobs.new x.count x.demand) (λ _. (work.new ≡ work.old) × (jobs.new ≡ jobs.old)) }
        ensures spare { Spared (24 * (window + 1)) work.old work.new }
        ensures history { SealedCarries (sealed_stands self.now) (calls.telling (G.Task.graph guest.now) number window (length work.old) (length jobs.old) result jobs.new) }
    {
        self.deck.tell(guest, number, window, work, jobs)
    }
}
