#![tactic(auto)]
// The run of a plan file: from its bytes to the lines that weigh prints.
pub mod answers;
pub mod line;
pub mod noting;
pub mod open_card;
pub mod run;
mod scales;
mod state;
