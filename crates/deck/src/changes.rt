// How a card is changed.
ghost use Rattle.std.specs.Prelude.{◌≡◌, Some, None, MatchResult};
ghost use Rattle.refusal.specs.Numbers.{refusal_in};
ghost use Rattle.engine.specs.Views.{numbers_of};
ghost use Rattle.deck.specs.Tables.{crank_of, clock_of};
ghost use Rattle.deck.specs.Calls.{mode_refused, band_refused, crank_recosted, clock_recosted, crank_cut};

use crate::cards::{CrankCard, TimedCard};
use engine::engine::Engine;
use refusal::Refusal;

impl CrankCard {
    // Changes the cost of one mode.
    pub(crate) fn recost(&mut self, index: u8, cost: u32) -> Result<(), Refusal>
        ensures refusal { refusal_in result ≡ mode_refused (Some (crank_of self.old)) index cost }
        ensures done { MatchResult result (λ _. crank_of self.new ≡ crank_recosted index cost (crank_of self.old)) (λ _. self.new ≡ self.old) }
    {
        self.card.recost(usize::from(index), cost)
    }

    // Cuts a band.
    pub(crate) fn cut(&mut self, engine: &Engine, speed: u32) -> Result<(), Refusal>
        ensures refusal { refusal_in result ≡ band_refused (numbers_of engine.now) (Some (crank_of self.old)) speed }
        ensures done { MatchResult result (λ _. crank_of self.new ≡ crank_cut speed (crank_of self.old)) (λ _. self.new ≡ self.old) }
    {
        self.card.cut(engine, speed)
    }
}

impl TimedCard {
    // Changes the cost, which has the index 0.
    pub(crate) fn recost(&mut self, index: u8, cost: u32) -> Result<(), Refusal>
        ensures refusal { refusal_in result ≡ mode_refused None index cost }
        ensures done { MatchResult result (λ _. clock_of self.new ≡ clock_recosted cost (clock_of self.old)) (λ _. self.new ≡ self.old) }
    {
        if index >= 1 {
            return Err(Refusal::ModeList);
        }
        self.timed.recost(cost)
    }
}
