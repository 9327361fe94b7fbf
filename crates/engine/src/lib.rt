#![tactic(auto)]
// Engines and engine cards, within their limits.
pub mod card;
pub mod changes;
pub mod checks;
pub mod engine;
pub mod makes;
pub mod numbers;
