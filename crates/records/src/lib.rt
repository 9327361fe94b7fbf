#![tactic(auto)]
// The records of a plan file: what their bytes decode to, and what a record says of itself.
pub mod bodies;
pub mod head;
pub mod record;
