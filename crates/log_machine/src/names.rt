// Rows and the entries that they file.

/// A row of a desk: the desk's number and the row's.
#[derive(Clone, Copy, Drop, PartialEq, Eq)]
pub struct RowName {
    pub desk: u32,
    pub row: u32,
}

/// An entry with the row that filed it. Contracts speak of it; no value of it is made.
pub struct Filed<E> {
    pub entry: E,
    pub by: RowName,
}

/// An ask with the row that makes it.
#[derive(Drop)]
pub struct RowOperation<A: Drop> {
    pub operation: A,
    pub by: RowName,
}
