//! The worksheet of a student's withdrawal from a term, line by line.
#![tactic(auto)]

mod entries;
mod entry;
mod laws;
mod lines;
mod on_file;
mod sheet;
mod words;
mod worked;

pub use laws::{repaid_of_owed, worksheet_adds_up};
pub use on_file::withdrawal;
