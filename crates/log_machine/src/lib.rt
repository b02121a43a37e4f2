//! A list whose entries are kept in a journal, whatever they are: each entry stands on the disk for good before it is
//! acknowledged.
//!
//! A `StateMachine` judges and spells the entries of one office. `Log::found` founds a list, `Log::recover` opens one
//! from what its file stands for, and `turn` answers an ask and keeps what it adds. `read` reads a list whole, and writes
//! nothing. `Rows` are what desks file into such a
//! list, and `RowFormat` how they are read from a text.
#![tactic(auto)]

mod forms;
mod laws;
mod log;
mod machine;
mod names;
mod own;
mod reading;
mod reply;
mod rows;
mod writing;

pub use forms::RowFormat;
pub use laws::{lives, once, one_fault, unfaulty};
pub use log::{FoundFault, Log};
pub use log_journal::OpenError;
pub use machine::{Decided, DecodeError, NewEntry, StateMachine};
pub use names::{Filed, RowName, RowOperation};
pub use own::SingleEntryMachine;
pub use reading::read;
pub use reply::LogReply;
pub use rows::{Rows, ask_of};
