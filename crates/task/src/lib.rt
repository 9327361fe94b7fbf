#![tactic(auto)]
// What the judge knows of a task, the kinds of task, and the layers over any kind.
pub mod checked;
pub mod interface;
pub mod kinds;
pub mod layers;
