//! What the headline says of a run of one desk and of a run of many, in few words: which filings may follow a history, how
//! a filing is written and kept, and what a file and a row come to.
//!
//! The definitions are in `specs/`. The laws that tie them to the program's own are stated here, each as the contract of a
//! function that computes nothing.
#![tactic(auto)]

mod bytes;
mod joins;
mod laws;
mod rows;
mod rule_laws;

pub use bytes::{files_what_can_be, kept_as_spelled};
pub use joins::{each_moment_joins, runs_join};
pub use laws::{recovers_as_kept, recovers_once, row_is_answered};
pub use rows::{meant_in_range, row_files, row_files_once, row_named, spelled_once};
pub use rule_laws::{admitted_is_legal, keys_differ, legal_is_admitted, may_follow_is_rules};
