#![tactic(auto)]
// Decks: an engine and its cards, changed, judged, and asked for the walks behind a verdict.
pub mod calls;
pub mod cards;
pub mod changes;
pub mod deck;
pub mod judging;
pub mod places;
pub mod rungs;
mod task_card;
pub mod telling;
pub mod verdict;
pub mod worked;
