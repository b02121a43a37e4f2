//! What is answered on what is on file, whatever keeps it: the verdict on a filing and its outcome, quotes, and where a student
//! stands; and what a filing moves.
#![tactic(auto)]

mod applications;
mod entry;
mod gathered;
mod noted;
mod responses;
mod sheets;
mod standings;
mod uncounted;

pub use applications::{award_in, indexed_by_book};
pub use entry::{adjusted, entry_of, paid, repaid, returned, sent};
pub use responses::{answer, returned_outcome};
pub use sheets::sheet;
pub use standings::{quote, standing};
pub use uncounted::{key_position_on, quote_on, rule_on, standing_on, verdict_on};
