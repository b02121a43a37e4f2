//! What a desk files.
ghost use Rattle.std.specs.Prelude.{◌≡◌, ◌≤◌};
ghost use Rattle.aid_types.specs.Ranges.{EachIsCents, IsBetween};

use aid_books::BoxedBook;
use aid_types::{Application, Breaks, ByProgram, Day, Key, Program, Student, Term, Year};

/// A school with its main terms in a year, 2 or 3, and its full-time credits, 1 to 40. `code` is 1 to 999,999.
#[derive(Clone, Copy, PartialEq, Eq)]
pub struct SchoolFacts {
    pub code: u32,
    pub terms: u8,
    pub full: u8,
    pub ghost in_range: { IsBetween 1 999999 code × IsBetween 2 3 terms × IsBetween 1 40 full },
}

/// One term of a year, as a school files it: its number in the year, 1 to 8, whether it is one beyond the main terms, its
/// first and last day, and its breaks.
#[derive(Clone, Copy, PartialEq, Eq)]
pub struct CalendarFacts {
    pub year: Year,
    pub term: u8,
    pub extra: bool,
    pub first: Day,
    pub last: Day,
    pub breaks: Breaks,
    pub ghost in_range: { IsBetween 1 8 term },
}

/// A student's use of the lifetime limit before this office, in units of a thousandth of a percent.
#[derive(Clone, Copy, PartialEq, Eq)]
pub struct PriorFacts {
    pub student: Student,
    pub units: u32,
}

/// A student's credits in a term of the filing school. `term` is 1 to 8.
#[derive(Clone, Copy, PartialEq, Eq)]
pub struct EnrollFacts {
    pub student: Student,
    pub year: Year,
    pub term: u8,
    pub credits: u8,
    pub ghost in_range: { IsBetween 1 8 term },
}

/// A student's cost of attendance at the filing school in a year, 0 to 999,999 dollars (HEA 472): the first one, or a later one
/// that replaces it.
#[derive(Clone, Copy, PartialEq, Eq)]
pub struct OriginateFacts {
    pub student: Student,
    pub year: Year,
    pub cost: u32,
    pub ghost in_range: { cost ≤ 999999 },
}

/// An amount of a program in a term of the filing school: a payment, a grant repayment or a downward adjustment. `term`
/// is 1 to 8, `cents` 0 to 99,999,999.
#[derive(Clone, Copy, PartialEq, Eq)]
pub struct Amount {
    pub student: Student,
    pub year: Year,
    pub term: u8,
    pub program: Program,
    pub cents: u64,
    pub ghost in_range: { IsBetween 1 8 term × (cents ≤ 99999999) },
}

/// A student's withdrawal from a term of the filing school (34 CFR 668.22): the last day of attendance, the day on which
/// the school determined it, the institutional charges and, by program in the order of returns, what could have been
/// disbursed. `term` is 1 to 8, each amount 0 to 99,999,999 cents.
#[derive(Clone, Copy, PartialEq, Eq)]
pub struct WithdrawFacts {
    pub student: Student,
    pub year: Year,
    pub term: u8,
    pub last: Day,
    pub determined: Day,
    pub charges: u64,
    pub could: ByProgram,
    pub ghost in_range: { IsBetween 1 8 term × (charges ≤ 99999999) },
    pub ghost could_in_range: { EachIsCents could },
}

/// What the school sent back to the government of a program in a term, after a withdrawal from it (34 CFR 668.22(j)): the
/// amount, the day on which it was sent, and a number by which the school finds it. `term` is 1 to 8, `cents` 0 to
/// 99,999,999, `reference` 0 to 999,999,999,999.
#[derive(Clone, Copy, PartialEq, Eq)]
pub struct SentFacts {
    pub student: Student,
    pub year: Year,
    pub term: u8,
    pub program: Program,
    pub cents: u64,
    pub day: Day,
    pub reference: u64,
    pub ghost in_range: { IsBetween 1 8 term × (cents ≤ 99999999) × (reference ≤ 999999999999) },
}

/// A record of one correction of the list: the key of the filing that was corrected, what was done (1 it was replaced, 2 it was
/// taken out, 3 it was put in), the reason (1 mistyped, 2 the student's document, 3 the school's record, 4 the government's
/// record, 5 a review's finding, 6 filed twice, 7 other), and a number by which the school finds the paper, 0 to
/// 999,999,999,999.
#[derive(Clone, Copy, PartialEq, Eq)]
pub struct AmendFacts {
    pub of: Key,
    pub change: u8,
    pub reason: u8,
    pub reference: u64,
    pub ghost in_range: { IsBetween 1 3 change × IsBetween 1 7 reason × (reference ≤ 999999999999) },
}

/// What is filed, by kind.
#[derive(Drop, PartialEq, Eq)]
pub enum What {
    /// The tables of an award year.
    Book(BoxedBook),
    School(SchoolFacts),
    Calendar(CalendarFacts),
    Prior(PriorFacts),
    /// An application, or a correction of it.
    Apply(Application),
    /// Credits in a term; those filed last are in force.
    Enroll(EnrollFacts),
    Originate(OriginateFacts),
    /// A disbursement.
    Pay(Amount),
    Withdraw(WithdrawFacts),
    /// A grant repayment by the student after a withdrawal.
    Repay(Amount),
    /// A downward adjustment of what was disbursed.
    Adjust(Amount),
    /// A changed cost of attendance; the one filed last is in force.
    Cost(OriginateFacts),
    /// A return that was sent back.
    Sent(SentFacts),
    /// A record of a correction.
    Amend(AmendFacts),
}

/// A filing: its key and what is filed.
#[derive(Drop, PartialEq, Eq)]
pub struct Filing {
    pub key: Key,
    pub what: What,
}

impl CalendarFacts {
    ghost use Rattle.aid_filings.specs.Calendars.{term_of};

    /// The term that is filed.
    pub fn to_term(&self) -> Term
        ensures { result ≡ term_of self.now }
    {
        Term {
            number: self.term,
            extra: self.extra,
            first: self.first,
            last: self.last,
            breaks: self.breaks,
        }
    }
}

impl What {
    ghost use Rattle.aid_filings.specs.Students.{student_of};

    /// The student whom it is about; `None` where it is a book, a school, a term or a record of a correction.
    pub fn student(&self) -> Option<Student>
        ensures { result ≡ student_of self.now }
    {
        match self {
            What::Book(_) | What::School(_) | What::Calendar(_) | What::Amend(_) => None,
            What::Prior(prior) => Some(prior.student),
            What::Apply(application) => Some(application.student),
            What::Enroll(enrollment) => Some(enrollment.student),
            What::Originate(cost) | What::Cost(cost) => Some(cost.student),
            What::Withdraw(withdrawal) => Some(withdrawal.student),
            What::Pay(amount) | What::Repay(amount) | What::Adjust(amount) => Some(amount.student),
            What::Sent(sent) => Some(sent.student),
        }
    }
}
