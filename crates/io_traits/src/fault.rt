//! The fault of an edge.

/// The edge refused the call, and its count of faults rose.
#[derive(Clone, Copy, PartialEq, Eq, Debug)]
pub struct Failed;
