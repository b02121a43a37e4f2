//! The program: `start` opens what the plan of its words names, and `perform` makes the one call that the plan needs.
//!
//! What `perform` does is proved, by the clauses of the call that it makes. `start` opens, locks and ends, and of that nothing is proved.
#![tactic(auto)]

mod calls;
mod outside;
mod task;
mod usage;

pub use calls::perform;
pub use outside::start;
pub use task::{KnownPolicies, Task};
