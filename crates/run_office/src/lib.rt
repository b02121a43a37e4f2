//! One command of the program over a journal, and many desks that file at once: what it does to the disk, of the input and
//! with what it writes, and its status.
#![tactic(auto)]

mod checks;
mod commands;
mod copies;
mod desks;
mod fund;
mod inputs;
mod report;

pub use commands::run;
pub use desks::{DeskInput, run_desks};
