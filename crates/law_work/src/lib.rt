//! What a desk files of Federal Work-Study: the fund of a school's award year, awards, earnings and releases. What is on file of
//! them, the rules by which a filing is judged on it, how each fund adds up, and the index, by a school's award year and by an award.
#![tactic(auto)]

mod facts;
mod filing;
mod index;
mod laws;
mod names;
mod rows;
mod rules;
mod written;

pub use facts::{WorkFacts, WorkOutcome};
pub use filing::{DollarFacts, EarnFacts, FundFacts, WorkFiling, WorkWhat};
pub use index::WorkIndex;
pub use laws::{allowed_adds_up, allowed_length, allowed_small, room_left};
pub use names::{AwardName, FundName};
pub use rows::{AwardRow, FundRow};
pub use rules::{MOST_WORK_FILINGS, broken, earning, outcome};
