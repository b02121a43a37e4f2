//! The aid office as a state machine in a log: each filing stands on the disk for good before it is acknowledged.
//!
//! A `Log` over `StampedOfficeMachine` answers what is asked and keeps what it admits, under the stamp that is handed in with it.
//! `recover_old` reads the office of a journal of version 1.
#![tactic(auto)]

mod laws;
mod machine;
mod old;
mod own;

pub use laws::{lives, once, one_fault, unfaulty};
pub use machine::{OfficeMachine, Stamped, StampedFiling, StampedOfficeMachine};
pub use old::recover_old;
