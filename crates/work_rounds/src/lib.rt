//! A run of the work-study desk over a disk: `found`, `file`, or `round`, which awards the rest of a fund to those whom the rows of
//! the input name, by the policy of the school.
//!
//! A round's input is read whole, and the journal is opened. A heading, asks and a closing text are planned on its list from the
//! text of the input. The heading is written, the asks are filed, each answered by a line before the next is filed, and the closing
//! text is written behind the last line.
#![tactic(auto)]

mod awards;
mod gather;
mod headed;
mod headed_filing;
mod headed_run;
mod laws;
mod order;
mod plan;
mod rows;
mod run;
mod words;

pub use headed::{PlannedRound, RoundPlan};
pub use headed_filing::file_headed_round;
pub use headed_run::run_headed_round;
pub use laws::no_award_breaks_213;
pub use plan::{RoundRows, WorkRound};
pub use rows::{RoundForm, RoundSaid};
pub use run::run_work;
pub use words::RoundRequest;
