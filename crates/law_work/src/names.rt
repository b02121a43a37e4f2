//! The names of rows, in the order in which the index keeps them.
ghost use Rattle.std.specs.Prelude.{◌≡◌};
ghost use Rattle.law_work.specs.Rules.{student_of, year_of};
ghost use Rattle.law_work.specs.Rows.{award_name, fund_name};

use crate::{WorkFiling, WorkWhat};

/// What names a fund: its school and its award year.
#[derive(Clone, Copy, PartialEq, Eq, PartialOrd, Ord)]
pub struct FundName {
    pub school: u32,
    pub year: u16,
}

/// What names an award: its student, its school and its award year.
#[derive(Clone, Copy, PartialEq, Eq, PartialOrd, Ord)]
pub struct AwardName {
    pub student: u64,
    pub school: u32,
    pub year: u16,
}

/// The fund that a filing is about.
pub(crate) fn fund_named(filing: &WorkFiling) -> FundName
    ensures { result ≡ fund_name filing.now }
{
    FundName {
        school: filing.key.school.0,
        year: year_named(&filing.what),
    }
}

/// The award that a filing is about; that of student 0 where it is about none.
pub(crate) fn award_named(filing: &WorkFiling) -> AwardName
    ensures { result ≡ award_name filing.now }
{
    AwardName {
        student: student_named(&filing.what),
        school: filing.key.school.0,
        year: year_named(&filing.what),
    }
}

// The year that a filing is about.
fn year_named(what: &WorkWhat) -> u16
    ensures { result ≡ year_of what.now }
{
    match what {
        WorkWhat::Fund(fund) => fund.year.0,
        WorkWhat::Award(award) => award.year.0,
        WorkWhat::Earn(work) => work.year.0,
        WorkWhat::Release(part) => part.year.0,
    }
}

// The student that a filing is about; 0 where it is about none.
fn student_named(what: &WorkWhat) -> u64
    ensures { result ≡ student_of what.now }
{
    match what {
        WorkWhat::Fund(_) => 0,
        WorkWhat::Award(award) => award.student.0,
        WorkWhat::Earn(work) => work.student.0,
        WorkWhat::Release(part) => part.student.0,
    }
}
