// A plan that is done: what is cast.
ghost use Rattle.deck.specs.Cards.{cards_of};
ghost use Rattle.deck.specs.EveryRun.{FitsEveryRunAlone};
ghost use Rattle.plan.specs.Marked.{fits_prop};

use deck::deck::Deck;

// The engine, cards and mark of the draft that was sealed. No call changes them. One struct inside
// Draft and Sealed is no plainer: each clause and method of both would go through it, and tell and
// mark, which both have, say of their histories what differs.
#[derive(Drop)]
pub struct Sealed {
    pub(crate) deck: Deck,
    pub(crate) mark: u32,
    ghost kept: { FitsEveryRunAlone (cards_of deck) mark } by { fits_prop (cards_of deck) mark },
}
