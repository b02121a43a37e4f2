//! A ticket lock over a state that takes turns. Threads share a `TicketLock` and have a `LockHandle` each, which knows what its turns
//! admitted, settled and left undecided. Joined into one, the passes tell what the state's list has. Who waits
//! may leave a note beside the lock, which the state is told before a later turn, and on which nothing rests.
#![tactic(auto)]

mod board;
mod seats;
mod sleepers;
mod turned;
mod turns;
mod view;

pub use turned::{LockedState, Snapshot};
pub use turns::{LockHandle, TicketLock};
