//! Histories: the filings so far, what is in force, the amounts that stand, and what the office answers.
//!
//! The definitions are in `specs/`. The laws that every legal history obeys are stated here, each as the contract of a
//! function that computes nothing. What is on file is asked through the trait `HistoryView`, row by row, of whatever keeps it.
#![tactic(auto)]

mod account;
mod decided;
mod laws;
mod least;
mod names;
mod on_file;
mod place;
mod rows;
mod sums;

pub use account::Account;
pub use decided::{award, ceiling, decision};
pub use laws::{
    admitted_is_legal, application_in_force, complete, cost_has_application, legal_front,
    legal_keys, legal_length, legal_within, older_outcome, repeated_filing, same_is_equal,
    sound_is_worked_out,
};
pub use least::{
    first_found, first_term_found, least_code_found, least_term_found, least_term_over, one_least,
    terms_ordered,
};
pub use names::{FilingName, StudentPlace, StudentSchoolYear, StudentYear};
pub use on_file::HistoryView;
pub use place::Place;
pub use rows::{CalendarRow, PlaceRow, SchoolRow, SchoolYearRow, StudentRow, TermRow, YearRow};
pub use sums::{net_is_small, net_is_sum, paid_is_enrolled};
