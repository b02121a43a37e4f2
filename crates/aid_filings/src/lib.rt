//! What a desk files, what is asked of the office, and what it answers.
#![tactic(auto)]

mod filing;
mod reply;

pub use filing::{
    AmendFacts, Amount, CalendarFacts, EnrollFacts, Filing, OriginateFacts, PriorFacts,
    SchoolFacts, SentFacts, What, WithdrawFacts,
};
pub use reply::{Operation, Outcome, Response, StandingRow};
