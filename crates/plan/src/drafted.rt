// A plan that is being made.
ghost use Rattle.deck.specs.Cards.{cards_of};
ghost use Rattle.deck.specs.EveryRun.{FitsEveryRunAlone};
ghost use Rattle.plan.specs.Marked.{fits_prop};

use deck::deck::Deck;

// An engine with its cards, and the mark: the horizon to which they were judged to fit since the
// last change, 0 where they were not. Up to the mark no window ever demands more than its length.
#[derive(Drop)]
pub struct Draft {
    pub(crate) deck: Deck,
    // a plain number: 0 is a horizon like any other, up to which nothing is promised
    pub(crate) mark: u32,
    ghost kept: { FitsEveryRunAlone (cards_of deck) mark } by { fits_prop (cards_of deck) mark },
}
