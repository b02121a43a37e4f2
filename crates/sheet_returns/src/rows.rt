//! What the lines of returns tell.
use aid_types::{Day, Program, Student, Year};

/// A withdrawal from a term of a school: the day on which the school determined it, by its count of days since 1900-01-01,
/// and the position of its filing.
#[derive(Clone, Copy, PartialEq, Eq)]
pub struct Withdrawn {
    pub determined: u32,
    pub position: u32,
}

/// A program of a withdrawal of which the school has sent back less than it returns: the day on which the return is due, the
/// days since, and what the school returns and has sent back, in cents.
#[derive(Clone, Copy)]
pub struct OpenReturn {
    pub due: Option<Day>,
    pub late: u32,
    pub student: Student,
    pub year: Year,
    pub term: u8,
    pub program: Program,
    pub returned: u64,
    pub sent: u64,
    pub position: u32,
    pub number: u64,
}

/// A program of a withdrawal of which the school returns something: what the school returns and has sent back, the last day on which it sent something, what it sent after the return was due, and what the student owes and has
/// repaid; amounts in cents.
#[derive(Clone, Copy)]
pub struct ReturnOfYear {
    pub student: Student,
    pub term: u8,
    pub program: Program,
    pub determined: Day,
    pub due: Option<Day>,
    pub returned: u64,
    pub sent: u64,
    pub last_sent: Option<Day>,
    pub sent_late: u64,
    pub owed: u64,
    pub repaid: u64,
    pub position: u32,
    pub number: u64,
}
