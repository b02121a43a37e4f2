// How a desk ends.

/// Why a desk ended before its rows were answered to the last.
#[derive(Clone, Copy, PartialEq, Eq)]
pub enum DeskStop {
    /// The disk refused a call. One entry may be undecided, which would stand at this position.
    DiskFault { undecided: Option<u32> },
    /// There is no memory.
    NoMemory,
}

/// How far a desk is.
#[derive(Clone, Copy, PartialEq, Eq)]
pub enum DeskEnd {
    /// It hasn't begun.
    Open,
    /// Each of its rows was answered.
    Done,
    /// It ended at the row behind those that were answered.
    Stopped(DeskStop),
}
