#![tactic(auto)]
// Plan files: which record may come when, the reader that hands records out, and faults with their byte place.
pub mod faults;
pub mod reader;
pub mod turns;
