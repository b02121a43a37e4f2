//! A run that writes one text of a list, of any kind of list and of any text, and files nothing.
#![tactic(auto)]

mod run;

pub use run::run_report;
