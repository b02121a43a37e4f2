//! Rows of a text, each read by a form; and the lines that answer rows, as far as they are the same at every desk: that a row is
//! none, that it is fine, how many there are, and that a filing is refused.
#![tactic(auto)]

mod count;
mod error;
mod field;
mod form;
mod laws;
mod lines;
mod numbers;
mod row;
mod rows;
mod table_form;

pub use count::has_fields;
pub use error::{Cause, RowError};
pub use field::number_in;
pub use form::RowReader;
pub use laws::one_text;
pub use lines::{put_error, put_fine, put_tally, refused_line};
pub use numbers::{push_cents, push_count, push_number};
pub use row::{entry_of_row, numbers_of, whole_at};
pub use rows::TextRows;
pub use table_form::{RowSaid, TableForm};
