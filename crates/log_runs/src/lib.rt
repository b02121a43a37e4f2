//! A run over a kept list: how it ends, its status and its last line; and the run of `found`, or of `file`, over any list.
#![tactic(auto)]

mod ending;
mod list;
mod stop;

pub use ending::{WRITE_FAILED, end, end_with, put};
pub use list::{ListCommand, run_list};
pub use stop::{RunStop, ended_checking, ended_filing, ended_founding, number_line};
