//! The stamp of an entry: a day, and a clerk's name, with their bytes.
#![tactic(auto)]

mod clerk;
mod day;
mod stamp;

pub use clerk::ClerkName;
pub use stamp::Stamp;
