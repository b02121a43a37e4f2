//! The work-study desk: the table of its filings, a filing as the list of its numbers, its rules over the index of what is on file,
//! what a round asks of it, and the policies of schools.
#![tactic(auto)]

mod desk;
mod entries;
mod policies;
mod rules;
mod table;

pub use desk::FundBalances;
pub use policies::SchoolPolicies;
pub use table::WorkStudy;
