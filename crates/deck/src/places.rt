// How a card is found in a deck, put in, changed and taken out.
ghost use Rattle.std.specs.Prelude.{◌≡◌, ◌<◌, true, false, not, ◌||◌, ◌==◌, MatchResult};
ghost use Rattle.refusal.specs.Numbers.{refusal_in};
ghost use Rattle.engine.specs.Views.{numbers_of};
ghost use Rattle.deck.specs.Tables.{right_card, crank_of, clock_of};
ghost use Rattle.deck.specs.Cards.{cards_of};
ghost use Rattle.deck.specs.Calls.{in_use, cards_present, with_engine, with_crank, with_clock, recost_refused, with_recost, cut_refused, with_cut, drop_refused, with_drop};
ghost use Rattle.deck.specs.Found.{StandsAt};

use crate::cards::{CrankCard, TimedCard};
use crate::deck::{Deck, Place};
use engine::engine::Engine;
use refusal::Refusal;

impl Deck {
    // Where the card of this number stands, if there is one.
    pub(crate) fn place(&self, number: u8) -> Option<Place>
        ensures { StandsAt self.now number result }
    {
        let key = u32::from(number);
        if let Some(at) = self.cranks.find(key) {
            return Some(Place::Crank(at));
        }
        let at = self.timeds.find(key)?;
        Some(Place::Timed(at))
    }

    // Whether some card has this number.
    pub(crate) fn uses(&self, number: u8) -> bool
        ensures { result ≡ in_use (cards_of self.now) number }
    {
        self.place(number).is_some()
    }

    // Whether no new card can have this number.
    pub(crate) fn is_taken(&self, number: u8) -> bool
        ensures { result ≡ (number == 0 || in_use (cards_of self.now) number) }
    {
        number == 0 || self.uses(number)
    }

    // Whether no card stands in the deck.
    pub(crate) fn is_empty(&self) -> bool
        ensures { result ≡ not (cards_present (cards_of self.now)) }
    {
        self.cranks.as_slice().is_empty() && self.timeds.as_slice().is_empty()
    }

    // Another engine, in a deck without cards.
    pub(crate) fn replace_engine(&mut self, engine: Engine)
        requires { cards_present (cards_of self.old) ≡ false }
        ensures { cards_of self.new ≡ with_engine (cards_of self.old) (numbers_of engine) }
    {
        self.engine = engine;
    }

    // One more engine card, which is right for the engine.
    pub(crate) fn add_crank(&mut self, card: CrankCard)
        requires room { self.old.cranks.used < 4 }
        requires right { right_card (numbers_of self.old.engine) (crank_of card) ≡ true }
        ensures { cards_of self.new ≡ with_crank (cards_of self.old) (crank_of card) }
    {
        self.cranks.insert(card);
    }

    // One more timed card.
    pub(crate) fn add_timed(&mut self, card: TimedCard)
        requires { self.old.timeds.used < 16 }
        ensures { cards_of self.new ≡ with_clock (cards_of self.old) (clock_of card) }
    {
        self.timeds.insert(card);
    }

    // Changes in place the cost of one mode of the card of this number.
    pub fn recost(&mut self, number: u8, index: u8, cost: u32) -> Result<(), Refusal>
        ensures refusal { refusal_in result ≡ recost_refused (cards_of self.old) number index cost }
        ensures done { MatchResult result (λ _. cards_of self.new ≡ with_recost (cards_of self.old) number index cost) (λ _. self.new ≡ self.old) }
    {
        match self.place(number) {
            Some(Place::Crank(at)) => {
                // first a slice: no element is lent out of an array in a struct with an invariant
                let cranks = &mut self.cranks.table[..];
                cranks[at].recost(index, cost)
            }
            Some(Place::Timed(at)) => {
                let timeds = &mut self.timeds.table[..];
                timeds[at].recost(index, cost)
            }
            None => Err(Refusal::NoSuchCard),
        }
    }

    // Splits at a speed the band of the card of this number that holds it.
    pub fn cut(&mut self, number: u8, speed: u32) -> Result<(), Refusal>
        ensures refusal { refusal_in result ≡ cut_refused (cards_of self.old) number speed }
        ensures done { MatchResult result (λ _. cards_of self.new ≡ with_cut (cards_of self.old) number speed) (λ _. self.new ≡ self.old) }
    {
        let engine = self.engine;
        match self.place(number) {
            Some(Place::Crank(at)) => {
                let cranks = &mut self.cranks.table[..];
                cranks[at].cut(&engine, speed)
            }
            Some(Place::Timed(_)) => Err(Refusal::BandList),
            None => Err(Refusal::NoSuchCard),
        }
    }

    // Removes the card of this number, which frees the number and the place.
    pub fn drop_card(&mut self, number: u8) -> Result<(), Refusal>
        ensures refusal { refusal_in result ≡ drop_refused (cards_of self.old) number }
        ensures done { MatchResult result (λ _. cards_of self.new ≡ with_drop (cards_of self.old) number) (λ _. self.new ≡ self.old) }
    {
        match self.place(number) {
            Some(Place::Crank(at)) => self.cranks.remove(at),
            Some(Place::Timed(at)) => self.timeds.remove(at),
            None => return Err(Refusal::NoSuchCard),
        }
        Ok(())
    }
}
