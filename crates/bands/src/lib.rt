#![tactic(auto)]
// An engine card's bands as a task.
mod as_task;
mod gaps;
pub mod kind;
pub mod worked;
