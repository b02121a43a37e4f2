//! The loan desk: the table of its filings, with the code and the name of each kind, its fields, and a filing as the list of its
//! numbers, both ways; and its rules over the index of what is on file.
#![tactic(auto)]

mod entries;
mod facts;
mod limits;
mod outcome;
mod parts;
mod rules;
mod scalar;
mod table;

pub use table::Loans;
