// Entries, asks and errors of rows with stamps.
use aid_stamps::Stamp;

/// An entry with its stamp.
#[derive(Drop)]
pub struct StampedEntry<E> {
    pub entry: E,
    pub stamp: Stamp,
}

/// An ask with the stamp of what it may add.
#[derive(Drop)]
pub struct StampedOperation<A> {
    pub operation: A,
    pub stamp: Stamp,
}

/// Why a row is no ask, with the stamp that its ask would have had.
#[derive(Drop)]
pub struct StampedError<E> {
    pub error: E,
    pub stamp: Stamp,
}
