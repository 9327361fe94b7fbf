// The calls that make a deck and put cards into it.
ghost use Rattle.std.specs.Prelude.{◌≡◌, ◌<◌, MatchResult};
ghost use Rattle.refusal.specs.Numbers.{refusal_in};
ghost use Rattle.deck.specs.Cards.{cards_of};
ghost use Rattle.deck.specs.Tables.{crank_given, clock_given};
ghost use Rattle.deck.specs.Calls.{new_cards, engine_refused, with_engine, crank_refused, with_crank, clock_refused, with_clock};

use crate::cards::{CrankCard, TimedCard};
use crate::deck::Deck;
use engine::card::{Card, CardParts};
use engine::engine::Engine;
use engine::numbers::Numbers;
use refusal::Refusal;
use table::few::Few;
use task::checked::Share;
use task::kinds::{Timed, TimedParts};

// What fills the cells of a table that are not in use.
const NO_CRANK: CrankCard = CrankCard {
    number: 0,
    share: Share::WHOLE,
    card: Card::BLANK,
};

const NO_TIMED: TimedCard = TimedCard {
    number: 0,
    timed: Timed::LEAST,
};

impl Deck {
    // The house engine and no card.
    pub fn new() -> Deck
        ensures { cards_of result ≡ new_cards }
    {
        Deck {
            engine: Engine::house(),
            cranks: Few::new(NO_CRANK),
            timeds: Few::new(NO_TIMED),
        }
    }

    // Replaces the engine of a deck without cards.
    pub fn set_engine(&mut self, numbers: Numbers) -> Result<(), Refusal>
        ensures refusal { refusal_in result ≡ engine_refused (cards_of self.old) numbers }
        ensures done { MatchResult result (λ _. cards_of self.new ≡ with_engine (cards_of self.old) numbers) (λ _. self.new ≡ self.old) }
    {
        if !self.is_empty() {
            return Err(Refusal::OutOfTurn);
        }
        let engine = Engine::new(numbers)?;
        self.replace_engine(engine);
        Ok(())
    }

    // Puts in an engine card.
    pub fn add_engine_card(
        &mut self,
        number: u8,
        share: u16,
        parts: CardParts<'_>,
    ) -> Result<(), Refusal>
        ensures refusal { refusal_in result ≡ crank_refused (cards_of self.old) (crank_given number share parts.entry) }
        ensures done { MatchResult result (λ _. cards_of self.new ≡ with_crank (cards_of self.old) (crank_given number share parts.entry)) (λ _. self.new ≡ self.old) }
    {
        if self.is_taken(number) {
            return Err(Refusal::NumberTaken);
        }
        if self.cranks.is_full() {
            return Err(Refusal::NoPlace);
        }
        let card = Card::new(&self.engine, parts)?;
        let share = Share::new(share)?;
        self.add_crank(CrankCard {
            number,
            share,
            card,
        });
        Ok(())
    }

    // Puts in a timed card.
    pub fn add_timed_card(&mut self, number: u8, parts: TimedParts) -> Result<(), Refusal>
        ensures refusal { refusal_in result ≡ clock_refused (cards_of self.old) (clock_given number parts) }
        ensures done { MatchResult result (λ _. cards_of self.new ≡ with_clock (cards_of self.old) (clock_given number parts)) (λ _. self.new ≡ self.old) }
    {
        if self.is_taken(number) {
            return Err(Refusal::NumberTaken);
        }
        if self.timeds.is_full() {
            return Err(Refusal::NoPlace);
        }
        let timed = Timed::new(parts)?;
        self.add_timed(TimedCard { number, timed });
        Ok(())
    }
}
