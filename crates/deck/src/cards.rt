// The cards of a plan, each under a number of its own.
use engine::card::Card;
use table::Keyed;
use task::checked::Share;
use task::kinds::Timed;

// An engine card under its number, with the share of its deadlines. One struct of a number and a
// card for both sorts would save one line, and be opened at every use.
#[derive(Clone, Copy)]
pub struct CrankCard {
    pub number: u8,
    pub share: Share,
    pub card: Card,
}

impl Keyed for CrankCard {
    ghost key = { λ c. c.number };

    fn key(&self) -> u32 {
        u32::from(self.number)
    }
}

// A timed card under its number.
#[derive(Clone, Copy)]
pub struct TimedCard {
    pub number: u8,
    pub timed: Timed,
}

impl Keyed for TimedCard {
    ghost key = { λ c. c.number };

    fn key(&self) -> u32 {
        u32::from(self.number)
    }
}
