//! Reports on an office: standings, awards, returns, lifetime units, stamps and seals; and their laws, each as the contract of a function that
//! computes nothing.
#![tactic(auto)]

mod columns;
mod exported;
mod gathered;
mod keys;
mod laws;
mod lines;
mod listed;
mod priors;
mod reports;
mod rows;
mod sealed;
mod table;

pub use columns::{
    put_amount, put_left, put_number, put_position, put_right, put_school, put_text,
};
pub use exported::export;
pub use gathered::{push_told, sort_students};
pub use laws::{places_of_awards, returns_in_order, students_of_reports};
pub use reports::{awards, lifetimes, returns, stamp_lines, standings};
pub use sealed::{seal_line, seal_lines};
pub use table::{ReportLine, put_count, table_of};
