//! Tables of rows by key, for the indexes of the office: a row is found by counted looks, and written without taking memory.
//! A `Table` keeps its rows sorted; in `Slots` the rows, which may be long, stay where they were put, and their numbers are
//! sorted. `Steps` counts the looks.
#![tactic(auto)]

mod counter;
mod find;
mod merge;
mod search;
mod slots;
mod table;
mod write;

pub use counter::Steps;
pub use slots::Slots;
pub use table::Table;
