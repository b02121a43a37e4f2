//! Tables of kinds of entries: how the number of each field is written, kept and limited, which numbers are still to come in an
//! entry, and the bytes of an entry, both ways.
#![tactic(auto)]

mod again;
mod draft;
mod field;
mod layout;
mod limit;
mod numbers;
mod reading;
mod same;
mod table;
mod writing;

pub use again::put_and_take;
pub use draft::Draft;
pub use field::{Field, Form, Limit, Part};
pub use layout::Layout;
pub use limit::fits;
pub use numbers::{MOST_NUMBERS, Numbers, add_numbers};
pub use reading::{numbers_at, take};
pub use same::is_same;
pub use table::{EntryCodec, KindTable, TableRow};
pub use writing::{put, put_numbers};
