#![tactic(auto)]
// Plans: a draft that is changed and judged, and the sealed plan that comes of it.
pub mod draft;
pub mod drafted;
pub mod judging;
pub mod sealed;
pub mod sealing;
