// How a worker behind a port ends.

/// How far a worker behind a port is.
#[derive(Clone, Copy, PartialEq, Eq)]
pub enum WebEnd {
    /// It hasn't begun.
    Open,
    /// It served as many connections as it was to.
    Done,
    /// Its port failed.
    AcceptorFault,
}
