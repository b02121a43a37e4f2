//! What a state has to bring to a lock: a list of numbers beside a device that may fail, in which two threads file, and many.
#![tactic(auto)]

pub mod counter;
pub mod desks;
pub mod pair;
#[cfg(test)]
mod threads;
