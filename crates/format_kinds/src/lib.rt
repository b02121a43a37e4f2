//! The kinds of filings, once for all that goes over them: the code and the name of each, its fields, and how the number of
//! each field is written, kept and limited.
//!
//! A book as the list of its numbers, both ways.
#![tactic(auto)]

mod book;
mod book_parts;
mod draft_of;
mod kind;
mod parts;
mod put;
mod read;
mod section;
mod tables;
mod words;

pub use draft_of::{new_draft, new_layout};
pub use kind::{Kind, KindRow, kind_at, kind_named, table_row};
pub use parts::key_parts;
pub use put::put_book;
pub use read::book_of_numbers;
pub use words::program_words;
