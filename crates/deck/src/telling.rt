// Telling: one greatest walk of a card or of the guest, job by job.
ghost use Rattle.std.specs.Prelude.{◌≡◌, ◌+◌, ◌*◌, length, MatchResult};
ghost use Rattle.refusal.specs.Numbers.{refusal_in};
ghost use Rattle.demand.specs.Told.{Tells};
ghost use Rattle.deck.specs.Cards.{cards_of};
ghost use Rattle.demand.specs.Table.{Spared};
ghost use Rattle.deck.specs.Telling.{tell_refused, task_at};

use crate::deck::{Deck, Place};
use crate::task_card::TaskCard;
use demand::{Told, ToldJob, greatest_walk};
use refusal::Refusal;
use task::interface::Task;

impl Deck {
    // Tells a walk that has the greatest demand of the window, of the card of this number or, for
    // 0, of the guest. The worktable is written over. Lent memory comes as parameters, as in judge.
    pub fn tell<G: Task>(
        &self,
        guest: &G,
        number: u8,
        window: u32,
        work: &mut [u32],
        jobs: &mut [ToldJob],
    ) -> Result<Told, Refusal>
        ensures refusal { refusal_in result ≡ tell_refused (cards_of self.now) number window (length work.old) (length jobs.old) }
        ensures told { MatchResult result (λ x. Tells (task_at (cards_of self.now) (G.Task.graph guest.now) number) window jobs.old jobs.new x.count x.demand) (λ _. (work.new ≡ work.old) × (jobs.new ≡ jobs.old)) }
        ensures spare { Spared (24 * (window + 1)) work.old work.new }
    {
        // 0 is the number by which callers ask for the guest: no card has it.
        if number == 0 {
            return greatest_walk(guest, window, work, jobs);
        }
        match self.place(number) {
            Some(Place::Crank(at)) => greatest_walk(
                &self.cranks.table[at].task(&self.engine),
                window,
                work,
                jobs,
            ),
            Some(Place::Timed(at)) => greatest_walk(
                &self.timeds.table[at].task(&self.engine),
                window,
                work,
                jobs,
            ),
            None => Err(Refusal::NoSuchCard),
        }
    }
}
