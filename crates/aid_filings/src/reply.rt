//! What is asked of the office and what it answers.
use crate::Filing;
use aid_types::{Formula, Refusal, School, Student, Way, Year};

/// What a desk asks: to file, the greatest Pell payment that the office would take, or where a student stands in a year.
#[derive(Drop, PartialEq, Eq)]
pub enum Operation {
    File(Filing),
    Quote {
        school: School,
        student: Student,
        year: Year,
        term: u8,
    },
    Standing {
        student: Student,
        year: Year,
    },
}

/// What an accepted filing brought.
#[derive(Clone, Copy, PartialEq, Eq, Debug)]
pub enum Outcome {
    Noted,
    /// An application: its formula, final Student Aid Index, and Scheduled Award in dollars with the way to it.
    Indexed {
        formula: Formula,
        sai: i32,
        way: Way,
        scheduled: u32,
    },
    /// A payment: the student's net cents of the program in the year at all schools, and the lifetime units used, both
    /// with it.
    Paid {
        paid: u64,
        used: u32,
    },
    /// A withdrawal: the percent earned in tenths of a percent, what the school returns, what the student owes, and the
    /// post-withdrawal disbursement, in cents.
    Returned {
        percent: u16,
        school: u64,
        owed: u64,
        post: u64,
    },
}

/// Where a student stands in a year. `transaction` is that of the application in force and 0 where there is none; then
/// `formula` is A, `way` is `Nothing`, and all else of the award is 0. `paid` is the year's net Pell in cents at all
/// schools, `used` the lifetime units.
#[derive(Clone, Copy, PartialEq, Eq, Debug)]
pub struct StandingRow {
    pub transaction: u32,
    pub formula: Formula,
    pub sai: i32,
    pub way: Way,
    pub scheduled: u32,
    pub paid: u64,
    pub used: u32,
}

/// How the office judges an ask. `position` is the place of a filing from 1. A quote is in cents.
#[derive(Clone, Copy, PartialEq, Eq, Debug)]
pub enum Response {
    Again { position: u32, outcome: Outcome },
    Refused(Refusal),
    Admit(Outcome),
    Quoted(u64),
    Standing(StandingRow),
}
