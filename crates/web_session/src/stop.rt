//! Why a session can't go on.

/// Why a session can't go on.
#[derive(Clone, Copy, PartialEq, Eq)]
pub enum Stop {
    /// The link's count of faults rose.
    Fault,
    /// There is no memory.
    NoMemory,
}
