//! A run that opens a journal and writes one sheet of its list.
#![tactic(auto)]

mod laws;
mod request;
mod run;
mod sheet;
mod words;

pub use laws::{a_noted_front_stands, one_seal_one_list, payments_add_up, seal_of_the_journal};
pub use request::{
    BookRequest, Position, SheetRequest, SheetRow, StudentRequest, StudentYearRequest,
};
pub use run::run_sheets;
pub use words::row_of;
