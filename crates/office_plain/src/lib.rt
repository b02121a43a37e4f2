//! What is on file, told by a plain list of filings, the oldest first, which is read from end to end at each question.
#![tactic(auto)]

mod applications;
mod calendars;
mod moved;
mod pell;
mod plain;
mod search;

pub use plain::{PlainHistory, is_legal};
