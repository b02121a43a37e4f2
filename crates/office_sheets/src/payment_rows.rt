//! What the lines of a term's payments tell.
use crate::ledger_rows::Moved;
use aid_stamps::Stamp;
use aid_types::{Key, Student, Year};

/// A movement of money: the position, the stamp and the key of its filing, the student's term, what moved, and the total of
/// its program with it over all students of the term, in cents.
#[derive(Clone, Copy)]
pub struct PaymentRow {
    pub position: u32,
    pub stamp: Stamp,
    pub key: Key,
    pub student: Student,
    pub year: Year,
    pub term: u8,
    pub moved: Moved,
    pub total: u64,
}
