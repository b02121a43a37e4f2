//! A small office of rules: marks, of which all together have at most 1,000 points, as a list over a journal, and as rows and lines.
//! And tests of the loan desk and of the work-study desk over a journal in memory: their worked rows, desks in either order, rounds,
//! faults and last lines.
#![tactic(auto)]

mod index;
#[cfg(test)]
mod loan_desks;
#[cfg(test)]
mod loan_rows;
#[cfg(test)]
mod loan_runs;
mod mark;
mod marks;
mod numbers;
mod rules;
mod session;
#[cfg(test)]
mod tests;
#[cfg(test)]
mod work_rows;
#[cfg(test)]
mod work_runs;

pub use index::MarkIndex;
use log_rules::RuleMachine;
pub use mark::{Left, Mark};
pub use marks::Marks;
pub use session::file_marks;

/// The list of marks.
pub type MarkList = RuleMachine<Marks>;
