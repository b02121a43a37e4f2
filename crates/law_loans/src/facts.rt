// What a filing is judged on.
use crate::filing::{BorrowerFacts, LimitFacts};

/// The nets of a student in cents: subsidized and unsubsidized, in a year and in all years.
#[derive(Clone, Copy, PartialEq, Eq)]
pub struct LoanNets {
    pub sub: u64,
    pub unsub: u64,
    pub sub_all: u64,
    pub unsub_all: u64,
}

/// What a filing is judged on: how many filings stand, and what is on file for its student and its year. A position is 0 where
/// nothing stands.
#[derive(Clone, Copy)]
pub struct LoanFacts {
    pub count: u32,
    /// The limits of the year, and their position.
    pub limits_at: u32,
    pub limits: Option<LimitFacts>,
    /// The record in force of the student and the year.
    pub record: Option<BorrowerFacts>,
    /// The last record of the student, of whatever year, and the limits of its year.
    pub last: Option<BorrowerFacts>,
    pub last_limits: Option<LimitFacts>,
    /// What the student borrowed before, in dollars: its position, the subsidized part and all.
    pub before_at: u32,
    pub before_sub: u32,
    pub before_total: u32,
    /// The position of the student's first loan.
    pub loan_at: u32,
    pub nets: LoanNets,
}

/// Which limits are tried: those of subsidized loans in the year and in all years, and that of all loans in all years. A record
/// tells its own rule for each of them.
#[derive(Clone, Copy)]
pub(crate) struct Tries {
    pub of_record: bool,
    pub sub: bool,
    pub all_sub: bool,
    pub all: bool,
}

/// With what a loan filing is admitted.
#[derive(Clone, Copy, PartialEq, Eq)]
pub enum LoanOutcome {
    Noted,
    /// The net of the loan's year, and that of all years with what was borrowed before, in cents.
    Lent { year: u64, all: u64 },
}
