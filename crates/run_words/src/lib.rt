//! The rows of words of the program: what stands behind the path of its journal.
#![tactic(auto)]

mod amend;
mod at;
mod behind;
mod command;
mod file_row;
mod hyphen;
mod main_row;
mod number;
mod stamped;
mod words;

pub use amend::amend_request;
pub use at::behind_at;
pub use command::{
    BookNumber, Command, FundRequest, GenerateRequest, MainRow, QuoteRequest, ReportRequest,
    ReportYear, StampedCommand,
};
pub use file_row::{changes_file, upgrade_file};
pub use main_row::{MOST_DESKS, needs_journal, row_of};
pub use number::number_in;
pub use stamped::{command_of, is_found};
pub use words::report_request;
