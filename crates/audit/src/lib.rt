//! An auditor of exported histories, which trusts nothing, and its run: the whole input is answered with one text, what an audit finds
//! in it, or the lines of rows about clock-hour programs.
#![tactic(auto)]

mod answering;
mod auditor;
mod filings;
mod finding;
mod findings;
mod good_lines;
mod laws;
mod line;
mod lists;
mod note;
mod run;
mod standings;
mod words;

pub use answering::{Answering, ClockAnswers, answer_input};
pub use auditor::audit;
pub use finding::{
    BROKEN_RULE, FEWER, Finding, NO_END, OTHER_SEAL, STRAY, TOO_MANY, UNSPELLED, USED_KEY,
    WRONG_COUNTS, WRONG_STANDING,
};
pub use findings::AuditAnswers;
pub use laws::{a_noted_front_stands, export_is_yes, one, one_seal_one_list, within};
pub use lists::{AuditedList, PlainList};
pub use note::Note;
pub use run::run_audit;
pub use words::AuditCommand;
