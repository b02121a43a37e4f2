//! A list of filings by any rules, as the docket of a kept list: one key a filing, the first broken rule, and the first outcome for a
//! filing that stands.
//!
//! A table of fields spells the filings (`format_table::Entries`), `OfficeRules` judge them by an index of what is on file, and a
//! `RuleMachine` is the docket of a `Log`.
#![tactic(auto)]

mod admission;
mod answer;
mod forms;
mod laws;
mod lines;
mod list;
mod number;
mod outcome;
mod own;
mod response;
mod rules;

pub use answer::is_same;
pub use forms::{TableRowFormat, TableRows};
pub use laws::again;
pub use lines::put_answer;
pub use list::RuleMachine;
pub use number::FilingNumber;
pub use outcome::OutcomeText;
pub use response::RuleResponse;
pub use rules::{Filed, OfficeRules};
