//! The names of rows, in the order in which the index keeps them, and whom and which year a filing is about.
ghost use Rattle.std.specs.Prelude.{◌≡◌};
ghost use Rattle.law_loans.specs.Rules.{student_of, year_of};

use crate::LoanWhat;
use aid_types::Student;

/// What names a student's year.
#[derive(Clone, Copy, PartialEq, Eq, PartialOrd, Ord)]
pub struct StudentYear {
    pub student: u64,
    pub year: u16,
}

/// The student that a filing is about; 0 where it is about none.
pub(crate) fn student_named(what: &LoanWhat) -> u64
    ensures { result ≡ student_of what.now }
{
    match what {
        LoanWhat::Limits(_) => 0,
        LoanWhat::Borrower(record) => number_of(record.student),
        LoanWhat::Before(before) => number_of(before.student),
        LoanWhat::Lend(loan) => number_of(loan.student),
        LoanWhat::Cancel(loan) => number_of(loan.student),
    }
}

/// The year that a filing is about; 0 where it is about none.
pub(crate) fn year_named(what: &LoanWhat) -> u16
    ensures { result ≡ year_of what.now }
{
    match what {
        LoanWhat::Limits(limits) => limits.year.number(),
        LoanWhat::Borrower(record) => record.year.number(),
        LoanWhat::Before(_) => 0,
        LoanWhat::Lend(loan) => loan.year.number(),
        LoanWhat::Cancel(loan) => loan.year.number(),
    }
}

fn number_of(student: Student) -> u64
    ensures { result ≡ student }
{
    student.0
}
