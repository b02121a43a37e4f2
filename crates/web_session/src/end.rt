//! How a session ends.

/// How a session ended.
#[derive(Clone, Copy, Debug, PartialEq, Eq)]
pub enum End {
    /// The input ended between requests, or a closing response was written that rejects nothing.
    Closed,
    /// The input ended within a request.
    Cut,
    /// A head was rejected, and the response that says so written.
    Rejected,
    /// As many requests were answered as may be.
    Limit,
    /// The link's count of faults rose.
    ConnectionFault,
    /// There is no memory.
    NoMemory,
}
