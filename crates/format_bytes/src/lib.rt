//! A filing as the list of its numbers, in the order of its kind's fields, both ways.
//!
//! The bytes of filings.
#![tactic(auto)]

mod application;
mod facts;
mod filing;
mod reading;
mod scalar;
mod stamped;
mod writing;

pub use filing::{filing_of, kind, numbers_in};
pub use io_traits::PayloadBuffer;
pub use reading::{TakeError, take};
pub use stamped::{put_stamped, take_stamped};
pub use writing::put;
