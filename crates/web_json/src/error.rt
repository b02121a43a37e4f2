//! Why a body gives no filing.

/// Why a body gives no filing.
#[derive(Clone, Copy, PartialEq, Eq)]
pub enum BodyError {
    /// The body says no filing.
    NotFiling,
    /// Memory ran out.
    NoMemory,
}
