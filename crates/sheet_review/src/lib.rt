//! Texts for a reviewer: the year's book on file, as the TOML that files it; and what is on file of a student's award year.
#![tactic(auto)]

mod book_text;
mod on_file;
mod reviewed;
mod sections;

pub use on_file::book;
pub use reviewed::review;
