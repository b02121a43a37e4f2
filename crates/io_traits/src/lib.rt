//! What the office reads from and writes to, as traits with a written meaning: `Source` gives bytes, `Sink` takes them, and `Disk` is
//! a file as a journal sees it, with what a read gives and what a crash may leave. Each counts its faults, and a call fails only where
//! that count rose. One that is honest tells its content, and of another nothing is known but its count.
//!
//! Beside them stands what is written once over any of them: a whole input read, a whole text written, and calls of a disk with a sync
//! behind them. `PayloadBuffer` holds one payload, and at a `SyncPoint` a desk may be held up before a turn.
//!
//! The real ones are in `io_host`, and those in memory, for tests, in `io_memory`.
#![tactic(auto)]

mod disk;
mod fault;
mod gate;
mod kept;
mod room;
mod sink;
mod source;
mod whole;

pub use disk::Disk;
pub use fault::Failed;
pub use gate::{NoSyncPoint, SyncPoint};
pub use kept::{cut_kept, sync_kept, trim, write_kept};
pub use room::{CAPACITY, PayloadBuffer};
pub use sink::Sink;
pub use source::Source;
pub use whole::{ReadError, read_to_limit, write_whole};
