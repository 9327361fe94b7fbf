// The calls that make and change a draft.
ghost use Rattle.std.specs.Prelude.{◌≡◌, false, [], Err, MatchResult};
ghost use Rattle.refusal.specs.Numbers.{refusal_in};
ghost use Rattle.ladder.specs.Rungs.{rung_speed};
ghost use Rattle.std.specs.Fn.{FnOnceReturnsAtMut};
ghost use Rattle.deck.specs.Tables.{crank_given, clock_given};
ghost use Rattle.deck.specs.Cards.{cards_of};
ghost use Rattle.deck.specs.Calls.{engine_refused, with_engine, crank_refused, with_crank, clock_refused, with_clock, recost_refused, with_recost, cut_refused, with_cut, rung_cut_refused, with_rung_cut, drop_refused, with_drop};
ghost use Rattle.plan.specs.Standing.{new_plan, changed, stands};
ghost use Rattle.plan.specs.History as calls;
ghost use Rattle.plan.specs.EveryHistory.{Reaches, DraftCarries};

use crate::drafted::Draft;
use deck::deck::Deck;
use engine::card::CardParts;
use engine::numbers::Numbers;
use refusal::Refusal;
use task::kinds::TimedParts;

impl Draft {
    // A new plan: the house engine and no card.
    pub fn new() -> Draft
        ensures new { stands result ≡ new_plan }
        ensures history { Reaches [] false (stands result) }
    {
        Draft {
            deck: Deck::new(),
            mark: 0,
        }
    }

    // Changes the engine or the cards. A change that is done resets the mark; one that is refused
    // leaves all.
    fn change<F: FnOnce(&mut Deck) -> Result<(), Refusal>>(
        &mut self,
        change: F,
    ) -> Result<(), Refusal>
        requires may { F.IsAlwaysCallable change }
        requires leaves { (d d' : Deck) (e : Refusal) → FnOnceReturnsAtMut F.FnOnce change d (Err e) d' → d' ≡ d }
        ensures did { FnOnceReturnsAtMut F.FnOnce change self.old.deck result self.new.deck }
        ensures mark { MatchResult result (λ _. self.new.mark ≡ 0) (λ _. self.new.mark ≡ self.old.mark) }
    {
        change(&mut self.deck)?;
        self.mark = 0;
        Ok(())
    }

    // Replaces the engine of a plan without cards.
    pub fn set_engine(&mut self, numbers: Numbers) -> Result<(), Refusal>
        ensures refusal { refusal_in result ≡ engine_refused (cards_of self.old.deck) numbers }
        ensures done { MatchResult result (λ _. stands self.new ≡ changed (with_engine (cards_of self.old.deck) numbers)) (λ _. self.new ≡ self.old) }
        ensures history { DraftCarries (stands self.old) (calls.changing (calls.set_engine numbers) result) (stands self.new) }
    {
        self.change(|deck| deck.set_engine(numbers))
    }

    // Puts in an engine card.
    pub fn add_engine_card(
        &mut self,
        number: u8,
        share: u16,
        parts: CardParts<'_>,
    ) -> Result<(), Refusal>
        ensures refusal { refusal_in result ≡ crank_refused (cards_of self.old.deck) (crank_given number share parts.entry) }
        ensures done { MatchResult result (λ _. stands self.new ≡ changed (with_crank (cards_of self.old.deck) (crank_given number share parts.entry))) (λ _. self.new ≡ self.old) }
        ensures history { DraftCarries (stands self.old) (calls.changing (calls.add_engine_card (crank_given number share parts.entry)) result) (stands self.new) }
    {
        // field by field, since nothing is inferred of a closure that holds a struct with references
        self.change(|deck| deck.add_engine_card(number, share, CardParts { ..parts }))
    }

    // Puts in a timed card.
    pub fn add_timed_card(&mut self, number: u8, parts: TimedParts) -> Result<(), Refusal>
        ensures refusal { refusal_in result ≡ clock_refused (cards_of self.old.deck) (clock_given number parts) }
        ensures done { MatchResult result (λ _. stands self.new ≡ changed (with_clock (cards_of self.old.deck) (clock_given number parts))) (λ _. self.new ≡ self.old) }
        ensures history { DraftCarries (stands self.old) (calls.changing (calls.add_timed_card (clock_given number parts)) result) (stands self.new) }
    {
        self.change(|deck| deck.add_timed_card(number, parts))
    }

    // Changes in place the cost of one mode of a card.
    pub fn recost(&mut self, number: u8, index: u8, cost: u32) -> Result<(), Refusal>
        ensures refusal { refusal_in result ≡ recost_refused (cards_of self.old.deck) number index cost }
        ensures done { MatchResult result (λ _. stands self.new ≡ changed (with_recost (cards_of self.old.deck) number index cost)) (λ _. self.new ≡ self.old) }
        ensures history { DraftCarries (stands self.old) (calls.changing (calls.recost number index cost) result) (stands self.new) }
    {
        self.change(|deck| deck.recost(number, index, cost))
    }

    // Splits at a speed the band of a card that holds it.
    pub fn cut(&mut self, number: u8, speed: u32) -> Result<(), Refusal>
        ensures refusal { refusal_in result ≡ cut_refused (cards_of self.old.deck) number speed }
        ensures done { MatchResult result (λ _. stands self.new ≡ changed (with_cut (cards_of self.old.deck) number speed)) (λ _. self.new ≡ self.old) }
        ensures history { DraftCarries (stands self.old) (calls.changing (calls.cut number speed) result) (stands self.new) }
    {
        self.change(|deck| deck.cut(number, speed))
    }

    // Splits at a rung's speed the band of a card that holds it.
    pub fn rung_cut(&mut self, number: u8, rung: u32) -> Result<(), Refusal>
        ensures refusal { refusal_in result ≡ rung_cut_refused (cards_of self.old.deck) number (rung_speed rung) }
        ensures done { MatchResult result (λ _. stands self.new ≡ changed (with_rung_cut (cards_of self.old.deck) number (rung_speed rung))) (λ _. self.new ≡ self.old) }
        ensures history { DraftCarries (stands self.old) (calls.changing (calls.rung_cut number rung) result) (stands self.new) }
    {
        self.change(|deck| deck.rung_cut(number, rung))
    }

    // Removes a card, which frees its number and its place.
    pub fn drop_card(&mut self, number: u8) -> Result<(), Refusal>
        ensures refusal { refusal_in result ≡ drop_refused (cards_of self.old.deck) number }
        ensures done { MatchResult result (λ _. stands self.new ≡ changed (with_drop (cards_of self.old.deck) number)) (λ _. self.new ≡ self.old) }
        ensures history { DraftCarries (stands self.old) (calls.changing (calls.drop_card number) result) (stands self.new) }
    {
        self.change(|deck| deck.drop_card(number))
    }
}
