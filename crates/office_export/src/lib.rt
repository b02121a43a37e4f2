//! The lines of an export, written and read: each filing under its stamp in hexadecimal, where students stand, and the counts of both
//! with the seal of the filings; and that seal.
#![tactic(auto)]

mod form;
mod reading;
mod sealed;
mod words;
mod writing;

pub use form::{LineForm, form_of};
pub use io_traits::PayloadBuffer;
pub use reading::{filing_of_digits, first_line, stamped_in};
pub use sealed::{OFFICE, seal_of_filings, sealed_with};
pub use words::is_seal;
pub use writing::{put_end_line, put_filing_line, put_standing_line};
