//! A run over a list under any rules, `found` or `file`, and a run of many desks at once: what each reads and writes, and its status.
#![tactic(auto)]

mod copies;
mod desks;
mod run;

pub use copies::FilingEntryCopies;
pub use desks::{RuleDeskInput, run_ruled_desks};
pub use run::run_ruled;
