//! A generated year: a year book, four schools with their terms, and students whose rows are drawn from a seed; and its rows
//! behind the book of a text.
#![tactic(auto)]

mod draws;
mod forms;
mod machine;
mod operation;
mod operations;
mod student;
mod tally;
mod terms;

pub use draws::{Draws, Students};
pub use forms::{YearRowFormat, YearRows};
pub use machine::GeneratingMachine;
pub use operation::{QuotePayment, YearOperation, YearResponse};
pub use operations::YearOperations;
pub use student::DrawnStudent;
pub use tally::YearTally;
