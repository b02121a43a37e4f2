//! What the office is asked and what it answers over HTTP: the asks of requests, their bodies in JSON, and the statuses and
//! bodies of replies.
#![tactic(auto)]

mod error;
mod filing;
mod laws;
mod members;
mod number;
mod operation;
mod reply;
mod reply_body;
mod value;

pub use error::BodyError;
pub use filing::filing_of;
pub use laws::{admitted, again, disk_faults};
pub use operation::ask_of;
pub use reply::status_of;
pub use reply_body::text_of;
