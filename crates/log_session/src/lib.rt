//! A session over a kept list: rows in, lines out. The input is read whole, the journal is opened, and the rows are filed
//! in order, each answered by a line before the next is filed. A text that tells of the list is written without an input.
//! A round files rows that are planned on the list as it was opened, and others are counted in place of being answered.
#![tactic(auto)]

mod checking;
mod counted;
mod counting;
mod filing;
mod founding;
mod laws;
mod opening;
mod planned;
mod reporting;
mod round_laws;
mod session;
mod stop;
mod tally;

pub use checking::{CheckStop, CheckTally, check};
pub use counted::{answer_counted, file_counted};
pub use filing::file_rows;
pub use founding::found;
pub use laws::{all_stands, answered_stands, each_moment, each_moment_of_session};
pub use opening::open;
pub use planned::file_planned;
pub use reporting::{Report, write_report};
pub use round_laws::{counted_stands, each_moment_of_counted, each_moment_of_counted_session};
pub use session::{INPUT_LIMIT, answer, file, read_input, read_rows};
pub use stop::{FileStop, FoundStop, ReadStop, SessionStop};
pub use tally::Tally;
