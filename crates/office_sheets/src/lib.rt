//! Sheets: texts of an office that people read; and laws of them, each as the contract of a function that computes nothing.
#![tactic(auto)]

mod copies;
mod front;
mod headed;
mod laws;
mod ledger;
mod ledger_lines;
mod ledger_rows;
mod lists;
mod payment_lines;
mod payment_rows;
mod pieces;
mod term_payments;
mod term_quotes;
mod term_sums;

pub use copies::copy_filing;
pub use front::front_of;
pub use headed::headed_text;
pub use laws::{rows_of_student, totals_of_payments};
pub use ledger::student;
pub use lists::{list, put_list_line};
pub use pieces::{clerk_or_hyphen, none_text, put_bytes, put_day_column, put_dollars, put_number};
pub use term_payments::payments;
pub use term_quotes::quotes;
