//! What a desk files of Direct Loans: the limits of a year, a borrower's record, what was borrowed before, loans and their
//! cancellations. What is on file of them, the rules by which a filing is judged on it, the limits within which each student stays,
//! and the index, by year, by student and by a student's year.
#![tactic(auto)]

mod bounds;
mod changes;
mod facts;
mod filing;
mod index;
mod laws;
mod names;
mod nets;
mod rows;
mod rules;
mod written;

pub use facts::{LoanFacts, LoanNets, LoanOutcome};
pub use filing::{BeforeFacts, BorrowerFacts, LimitFacts, LoanAmount, LoanFiling, LoanWhat};
pub use index::LoanIndex;
pub use laws::{allowed_amounts, allowed_length, allowed_within, room_left};
pub use names::StudentYear;
pub use rows::{LimitsRow, ProgramNets, StudentRow, YearRow};
pub use rules::{MOST_LOAN_FILINGS, broken, outcome};
