// Judging a draft, telling from it, and its mark.
ghost use Rattle.std.specs.Prelude.{◌≡◌, ◌+◌, ◌*◌, length, IfOk, MatchResult};
ghost use Rattle.refusal.specs.Numbers.{refusal_in};
ghost use Rattle.demand.specs.Judged.{lent_refusal};
ghost use Rattle.demand.specs.Told.{Tells};
ghost use Rattle.deck.specs.Cards.{cards_of};
ghost use Rattle.deck.specs.Judging.{tasks, Judged, mark_of};
ghost use Rattle.deck.specs.EveryRun.{Promises};
ghost use Rattle.demand.specs.Table.{Spared};
ghost use Rattle.deck.specs.Telling.{tell_refused, task_at};
ghost use Rattle.plan.specs.Standing.{stands};
ghost use Rattle.plan.specs.History as calls;
ghost use Rattle.plan.specs.EveryHistory.{DraftCarries};

use crate::drafted::Draft;
use deck::verdict::Verdict;
use demand::{Told, ToldJob};
use refusal::Refusal;
use task::interface::Task;

impl Draft {
    // The horizon to which the plan was judged to fit since its last change, else 0.
    pub fn mark(&self) -> u32
        ensures value { result ≡ (stands self.now).mark }
        ensures history { DraftCarries (stands self.now) (calls.marking result) (stands self.now) }
    {
        self.mark
    }

    // Judges the plan with a guest: the summed demand of all tasks at every t up to the horizon,
    // and whether one of these sums exceeds its t. "Fits" holds for every run: whatever drives
    // the engine makes, whatever lawful timings the timed cards keep, whatever jobs the guest may
    // release, no window up to the horizon demands more than its length.
    pub fn judge<G: Task>(
        &mut self,
        guest: &G,
        horizon: u32,
        work: &mut [u32],
        totals: &mut [u64],
    ) -> Result<Verdict, Refusal>
        ensures refusal { refusal_in result ≡ lent_refusal horizon (length work.old) (length totals.old) }
        ensures judged { MatchResult result (λ v. Judged (tasks (cards_of self.old.deck) (G.Task.graph guest.now)) horizon work.old work.new totals.old totals.new v) (λ _. (work.new ≡ work.old) × (totals.new ≡ totals.old)) }
        ensures runs { IfOk result (λ v. Promises v (cards_of self.old.deck) (G.Task.lists guest.now)) }
        ensures marked { MatchResult result (λ v. (self.new.deck ≡ self.old.deck) × (self.new.mark ≡ mark_of v)) (λ _. self.new ≡ self.old) }
        ensures history { DraftCarries (stands self.old) (calls.judging (G.Task.graph guest.now) horizon (length work.old) (length totals.old) result) (stands self.new) }
    {
        let verdict = self.deck.judge(guest, horizon, work, totals)?;
        self.mark = verdict.mark();
        Ok(verdict)
    }

    // Tells a walk that has the greatest demand of the window, of the card of this number or, for
    // 0, of the guest. The worktable is written over.
    pub fn tell<G: Task>(
        &self,
        guest: &G,
        number: u8,
        window: u32,
        work: &mut [u32],
        jobs: &mut [ToldJob],
    ) -> Result<Told, Refusal>
        ensures refusal { refusal_in result ≡ tell_refused (cards_of self.now.deck) number window (length work.old) (length jobs.old) }
        ensures told { MatchResult result (λ x. Tells (task_at (cards_of self.now.deck) (G.Task.graph guest.now) number) window jobs.old jobs.new x.count x.demand) (λ _. (work.new ≡ work.old) × (jobs.new ≡ jobs.old)) }
        ensures spare { Spared (24 * (window + 1)) work.old work.new }
        ensures history { DraftCarries (stands self.now) (calls.telling (G.Task.graph guest.now) number window (length work.old) (length jobs.old) result jobs.new) (stands self.now) }
    {
        self.deck.tell(guest, number, window, work, jobs)
    }
}
