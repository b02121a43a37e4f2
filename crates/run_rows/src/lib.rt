//! The rows that the office's desks file, whatever keeps its list: those of a text, one book, and one quote.
#![tactic(auto)]

mod book;
mod desk;
mod quote;

pub use book::{BookRow, BookRowFormat};
pub use desk::{DeskRowFormat, DeskRows};
pub use quote::QuoteRow;
