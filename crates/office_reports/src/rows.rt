//! What the lines of reports tell.
use aid_filings::StandingRow;
use aid_types::{Day, Program, School, Student};

/// Where a student stands in the year.
#[derive(Clone, Copy)]
pub struct StandingOf {
    pub student: Student,
    pub row: StandingRow,
}

/// A term of a school in which a student was paid.
#[derive(Clone, Copy, PartialEq, Eq)]
pub struct PaidPlace {
    pub school: School,
    pub student: Student,
    pub term: u8,
}

/// A student's net cents of a program in a term of a school.
#[derive(Clone, Copy)]
pub struct NetOf {
    pub school: School,
    pub student: Student,
    pub term: u8,
    pub program: Program,
    pub cents: u64,
}

/// A withdrawal: the percent earned in tenths of a percent, what the school returns, what the student owes and the
/// post-withdrawal disbursement in cents, and the day on which the school's return is due.
#[derive(Clone, Copy)]
pub struct ReturnOf {
    pub school: School,
    pub student: Student,
    pub term: u8,
    pub percent: u16,
    pub returned: u64,
    pub owed: u64,
    pub post: u64,
    pub due: Option<Day>,
}

/// A student's lifetime units: those before this office, and all.
#[derive(Clone, Copy)]
pub struct LifetimeOf {
    pub student: Student,
    pub prior: u32,
    pub used: u32,
}
