// A cut at a rung of the house ladder.
ghost use Rattle.std.specs.Prelude.{◌≡◌, MatchResult};
ghost use Rattle.refusal.specs.Numbers.{refusal_in};
ghost use Rattle.ladder.specs.Rungs.{rung_speed};
ghost use Rattle.deck.specs.Cards.{cards_of};
ghost use Rattle.deck.specs.Calls.{rung_cut_refused, with_rung_cut};

use crate::deck::Deck;
use refusal::Refusal;

impl Deck {
    // Splits at a rung's speed the band of the card of this number that holds it.
    pub fn rung_cut(&mut self, number: u8, rung: u32) -> Result<(), Refusal>
        ensures refusal { refusal_in result ≡ rung_cut_refused (cards_of self.old) number (rung_speed rung) }
        ensures done { MatchResult result (λ _. cards_of self.new ≡ with_rung_cut (cards_of self.old) number (rung_speed rung)) (λ _. self.new ≡ self.old) }
    {
        if !self.uses(number) {
            return Err(Refusal::NoSuchCard);
        }
        let speed = ladder::rung(rung).ok_or(Refusal::BandList)?;
        self.cut(number, speed)
    }
}
