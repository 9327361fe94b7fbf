// Judging: the summed demand of all tasks, and the verdict over it.
ghost use Rattle.std.specs.Prelude.{◌≡◌, ◌+◌, ◌*◌, map, length, Some, IfOk, MatchResult};
ghost use Rattle.std.specs.List.{AllPass};
ghost use Rattle.refusal.specs.Numbers.{refusal_in};
ghost use Rattle.engine.specs.Views.{numbers_of};
ghost use Rattle.demand.specs.Judged.{lent_refusal};
ghost use Rattle.demand.specs.Table.{Spared};
ghost use Rattle.deck.specs.Cards.{cards_of};
ghost use Rattle.deck.specs.Judging.{tasks, Judged, mark_of};
ghost use Rattle.deck.specs.EveryRun.{Promises};
ghost use Rattle.deck.specs.Sums.{Grown, Decides};

use crate::deck::Deck;
use crate::task_card::TaskCard;
use crate::verdict::Verdict;
use demand::{add, check_lent, clear, first_over};
use engine::engine::Engine;
use refusal::Refusal;
use task::interface::Task;

// Adds the demand of each card, as a task with this engine, to the totals.
fn add_cards<C: TaskCard>(
    cards: &[C],
    engine: &Engine,
    horizon: u32,
    work: &mut [u32],
    totals: &mut [u64],
) -> Result<(), Refusal>
    requires { AllPass (C.right (numbers_of engine.now)) cards.now }
    ensures { MatchResult result (λ _. Grown (map (C.graph (numbers_of engine.now)) cards.now) horizon totals.old totals.new × Spared (24 * (horizon + 1)) work.old work.new) (λ e. lent_refusal horizon (length work.old) (length totals.old) ≡ Some e) }
{
    for card in cards {
        add(&card.task(engine), horizon, work, totals)?;
    }
    Ok(())
}

impl Verdict {
    // The mark that this verdict sets: the horizon to which a plan fits, else 0.
    pub fn mark(self) -> u32
        ensures { result ≡ mark_of self }
    {
        match self {
            Verdict::Fits { horizon } => horizon,
            Verdict::Over { .. } => 0,
        }
    }

    // The verdict over totals.
    fn over(totals: &[u64], horizon: u32) -> Verdict
        ensures { Decides result totals.now horizon }
    {
        match first_over(totals, horizon) {
            Some((at, total)) => Verdict::Over { at, total },
            None => Verdict::Fits { horizon },
        }
    }
}

impl Deck {
    // Judges the cards with a guest: the summed demand of all tasks at every t up to the horizon,
    // and whether one of these sums exceeds its t. "Fits" holds for every run: whatever drives
    // the engine makes, whatever lawful timings the timed cards keep, whatever jobs the guest may
    // release, no window up to the horizon demands more than its length. Lent memory comes as
    // parameters: in a struct with two `&mut` it would cost each contract a clause for each, that it
    // is still the same reference.
    pub fn judge<G: Task>(
        &self,
        guest: &G,
        horizon: u32,
        work: &mut [u32],
        totals: &mut [u64],
    ) -> Result<Verdict, Refusal>
        ensures refusal { refusal_in result ≡ lent_refusal horizon (length work.old) (length totals.old) }
        ensures judged { MatchResult result (λ v. Judged (tasks (cards_of self.now) (G.Task.graph guest.now)) horizon work.old work.new totals.old totals.new v) (λ _. (work.new ≡ work.old) × (totals.new ≡ totals.old)) }
        ensures runs { IfOk result (λ v. Promises v (cards_of self.now) (G.Task.lists guest.now)) }
    {
        check_lent(horizon, work.len(), totals.len())?;
        clear(totals, horizon);
        // none of these is refused: what is lent has been checked
        add_cards(self.cranks.as_slice(), &self.engine, horizon, work, totals)?;
        add_cards(self.timeds.as_slice(), &self.engine, horizon, work, totals)?;
        add(guest, horizon, work, totals)?;
        Ok(Verdict::over(totals, horizon))
    }
}
