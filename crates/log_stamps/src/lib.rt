//! A list whose entries each carry a stamp, over any list.
#![tactic(auto)]

mod entry;
mod own;
mod rows;
mod stamping;

pub use entry::{StampedEntry, StampedError, StampedOperation};
pub use rows::{StampedRowFormat, StampedRows};
pub use stamping::{Stampable, StampedMachine};
