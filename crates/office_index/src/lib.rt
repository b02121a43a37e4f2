//! The office: which filings stand, what it answers to an ask, and how a filing is admitted. Its filings are kept with the
//! outcomes of their admissions and with sorted rows that tell what is on file.
#![tactic(auto)]

mod entries;
mod filed;
mod indexed;
mod lookup;
mod office;
mod own_entry;
mod written;

pub use entries::{FilingNumber, SchoolEntry, StudentEntry};
pub use indexed::Indexed;
pub use office::Office;
pub use written::Written;
