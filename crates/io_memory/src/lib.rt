//! The outside in memory, for tests and benches alone: honest sources, sinks, disks, connections and ports, which tell all that they
//! hold.
//!
//! Each fails at the calls of given numbers. `MemoryDisk` also stops for good at a given call, and leaves there what it is told to; it
//! keeps a record of its calls, and so tells what a crash may leave. By a `HoldSyncPoint`, and by connections that wait for a gate, a
//! test chooses an order of turns.
#![tactic(auto)]

mod call;
mod disk_memory;
mod gated;
mod hold;
mod memory;
mod memory_link;
mod memory_port;
mod stop;

use call::DiskCall;
pub use disk_memory::MemoryDisk;
pub use gated::{PacedAcceptor, PacedConnection};
pub use hold::HoldSyncPoint;
pub use memory::{MemorySink, MemorySource, SteadySource};
pub use memory_link::MemoryConnection;
pub use memory_port::MemoryAcceptor;
pub use stop::{DiskStop, Fill};
