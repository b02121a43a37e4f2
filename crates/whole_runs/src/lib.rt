//! Runs of commands over a file in memory, and texts, for crates of tests.
#![tactic(auto)]

mod runs;
mod texts;

pub use runs::{EMPTY, Run, disk, ran, ran_over, words_of};
pub use texts::{BOTH, CUT, OLD, long_input};
