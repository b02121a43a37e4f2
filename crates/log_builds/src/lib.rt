//! A journal that is built whole, of entries that are given one after another: no part of it is ever taken for a journal.
//!
//! `build` writes all of the journal but its first byte, which is 0, and syncs that; then it writes the first byte as 1. Until then
//! the file is no journal, however much of it stands on the disk, and from then on it has all entries. `Entries` gives them.
#![tactic(auto)]

mod building;
mod entries;
mod records;

pub use building::build;
pub use entries::Entries;
