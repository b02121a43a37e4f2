//! The worksheet of a Student Aid Index and of the award on it, line by line.
#![tactic(auto)]

mod award;
mod entry;
mod household;
mod in_force;
mod laws;
mod lines;
mod sheet;
mod words;

pub use in_force::need;
pub use laws::households_add_up;
