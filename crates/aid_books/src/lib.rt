//! The book of an award year: its figures and its tables.
#![tactic(auto)]

mod ages;
mod book;
mod boxed;
mod by_size;
mod marginal;

pub use ages::{AgeRow, Ages};
pub use book::{
    AssetRates, Book, Employment, Payroll, PellFigures, Percents, Poverty, Protection, Schedule,
};
pub use boxed::BoxedBook;
pub use by_size::{Allowance, BySize, Guideline};
pub use marginal::{Bracket, Brackets};
