//! A journal of payloads: each one stands on the disk for good before it is acknowledged, whenever a crash comes.
//!
//! `found` makes a journal in a file without one, `recover`, `next` and `ready` open one, `put` adds a payload, which
//! `put_ahead` may have written before, `settle` decides one that a fault left undecided, and `lengthen` makes the file longer
//! ahead of its records. The bytes are a byte that is 1 once the journal is founded, its
//! `Header`, which is a name of eight bytes and a version in four, and three zeros, and for each payload a gate byte
//! that is 1 where it is open, the payload's length in four bytes and its bytes; behind them stands a closed gate.
//! Numbers have their least byte first.
#![tactic(auto)]

mod ahead;
mod founding;
mod head;
mod header;
mod journal;
mod laws;
mod opening;
mod piece;
mod record;
mod recovery;

pub use founding::{FoundError, found};
pub use header::Header;
pub use journal::{Journal, PutError};
pub use laws::{lives, once, undamaged};
pub use opening::{OpenError, Opening};
pub use recovery::recover;
