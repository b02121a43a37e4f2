//! The texts of the desks: the rows and the books that they file, the lines that tell what is wrong with them, and those that
//! answer them.
//!
//! A filing as the row of comma-separated values that files it, and that such rows read back.
#![tactic(auto)]

mod field;
mod filing;
mod form;
mod laws;
mod line;
mod reply;
mod row;
mod written_laws;
mod written_row;

pub use filing::book_filing;
pub use form::{FilingForm, FilingSaid};
pub use format_rows::{put_error, put_fine, put_tally};
pub use laws::once;
pub use line::put_book_error;
pub use reply::{outcome_line, put_answer, put_quote};
pub use written_laws::{rows_are_words, rows_read_back};
pub use written_row::put_row;
