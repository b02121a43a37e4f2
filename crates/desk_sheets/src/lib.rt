//! Texts of the list of a desk under rules, whose own part of a contract they need nothing of: the seal of its filings, of all or of the
//! first so many, and the seal of each front.
#![tactic(auto)]

mod request;
mod run;
mod sealed;
mod sheet;

pub use request::{DeskSheet, DeskSheetRow};
pub use run::run_desk_sheets;
