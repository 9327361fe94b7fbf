// An engine with its cards: the one value that a draft and a sealed plan hold beside their mark.
ghost use Rattle.std.specs.Prelude.{◌≡◌, true};
ghost use Rattle.engine.specs.Limits.{every};
ghost use Rattle.engine.specs.Views.{numbers_of};
ghost use Rattle.deck.specs.Tables.{right_card, cranks_in};

use crate::cards::{CrankCard, TimedCard};
use engine::engine::Engine;
use table::few::Few;

// An engine and cards that are right for it.
#[derive(Clone, Copy)]
pub struct Deck {
    pub engine: Engine,
    // in rising order of their numbers
    pub cranks: Few<CrankCard, 4>,
    // likewise
    pub timeds: Few<TimedCard, 16>,
    ghost right: { every (right_card (numbers_of engine)) (cranks_in cranks) ≡ true },
}

// Where a card stands: its table and its index there.
#[derive(Clone, Copy)]
pub enum Place {
    Crank(usize),
    Timed(usize),
}
