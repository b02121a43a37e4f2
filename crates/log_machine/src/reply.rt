// What a turn replies.

/// What a turn of a kept list replies.
#[derive(Clone, Copy, PartialEq, Eq, Drop)]
pub enum LogReply<V> {
    /// The ask was judged on a list of `front` entries. The entry that it adds, where it adds one, stands at `front + 1`.
    Answered { response: V, front: u32 },
    /// The disk refused a call. One entry may be undecided, which would stand at this position.
    DiskFault { undecided: Option<u32> },
    /// There is no memory. All is as it was.
    NoMemory,
}
