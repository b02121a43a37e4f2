//! What a desk files of Direct Loans.
ghost use Rattle.std.specs.Prelude.{◌≤◌, ◌++◌, ◌∷◌, IsTrue};
ghost use Rattle.aid_types.specs.Ranges.{IsBetween};
ghost use Rattle.law_loans.specs.Ranges.{EachIsDollars, HaveLevels, is_loan};

use aid_types::{Key, Program, Student, Year};

/// The loan limits of an award year, in dollars, 0 to 999,999 each (HEA 455(a), 428(b), 428H(d); 34 CFR 685.203). Level 3 is the
/// third year of study and above, level 4 is a graduate student.
#[derive(Clone, Copy)]
pub struct LimitFacts {
    pub year: Year,
    /// The annual limit of subsidized loans, at levels 1 to 4.
    pub sub: [u32; 4],
    /// The annual limit of all loans of a dependent student, at levels 1 to 3.
    pub dependent: [u32; 3],
    /// The annual limit of all loans of an independent student, at levels 1 to 3.
    pub independent: [u32; 3],
    /// The annual limit of all loans at level 4.
    pub graduate: u32,
    /// The aggregate limit of subsidized loans: below level 4, and there.
    pub aggregate_sub: [u32; 2],
    /// The aggregate limit of all loans: of a dependent student below level 4, of an independent one there, and at level 4.
    pub aggregate: [u32; 3],
    pub ghost in_range: { EachIsDollars (sub ++ dependent ++ independent ++ graduate ∷ aggregate_sub ++ aggregate) },
    pub ghost levels: { HaveLevels sub dependent independent aggregate_sub aggregate },
}

/// A borrower's record in an award year: the number of the transaction that it rests on, 1 to 99, the level of study, 1 to 4,
/// whether the student is independent, and the need and the cost of attendance, 0 to 999,999 dollars (HEA 471, 472, 480(d)).
#[derive(Clone, Copy)]
pub struct BorrowerFacts {
    pub student: Student,
    pub year: Year,
    pub transaction: u8,
    pub level: u8,
    pub independent: bool,
    pub need: u32,
    pub cost: u32,
    pub ghost in_range: { IsBetween 1 99 transaction × IsBetween 1 4 level × (need ≤ 999999) × (cost ≤ 999999) },
}

/// What a student borrowed before this office, subsidized and in all, 0 to 999,999 dollars each.
#[derive(Clone, Copy)]
pub struct BeforeFacts {
    pub student: Student,
    pub sub: u32,
    pub total: u32,
    pub ghost in_range: { (sub ≤ 999999) × (total ≤ 999999) },
}

/// A loan of a program, `Unsub` or `Sub`, to a student in an award year, or a part of one that is cancelled, 0 to 99,999,999
/// cents.
#[derive(Clone, Copy)]
pub struct LoanAmount {
    pub student: Student,
    pub year: Year,
    pub program: Program,
    pub cents: u64,
    pub ghost in_range: { IsTrue (is_loan program) × (cents ≤ 99999999) },
}

/// What is filed, by kind.
#[derive(Clone, Copy)]
pub enum LoanWhat {
    /// The limits of an award year.
    Limits(LimitFacts),
    /// A record of a borrower, or a correction of it.
    Borrower(BorrowerFacts),
    /// What a student borrowed before.
    Before(BeforeFacts),
    /// A loan.
    Lend(LoanAmount),
    /// A cancellation.
    Cancel(LoanAmount),
}

/// A filing: its key and what is filed.
#[derive(Clone, Copy)]
pub struct LoanFiling {
    pub key: Key,
    pub what: LoanWhat,
}
