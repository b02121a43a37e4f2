//! The rules on what the office's own desk files, books, schools and prior use; and on records of corrections, which any desk
//! files.
ghost use Rattle.std.specs.Prelude.{◌≡◌};
ghost use Rattle.law_rules.specs.Lines.{lines_of};
ghost use Rattle.aid_types.specs.RuleLines.{first_broken as first_broken_of};
ghost use Rattle.aid_filings.specs.declared.filing.What.TheVariants.{Book as BookFiled, School as SchoolFiled, Prior as PriorFiled, Amend};

use crate::facts::Facts;
use crate::limits::MOST_UNITS;
use crate::rules::{rule_12, rule_14, rule_90};
use aid_books::BoxedBook;
use aid_filings::{AmendFacts, PriorFacts, SchoolFacts};
use aid_types::{Refusal, School, first_broken, over, stands};

/// The first broken rule of an award year's tables.
pub(crate) fn broken_book(f: &Facts, school: School, book: &BoxedBook) -> Option<Refusal>
    ensures { result ≡ first_broken_of (lines_of f.now school (BookFiled book.now)) }
{
    let year = book.as_book().year;
    first_broken(&[
        rule_90(f),
        rule_14(school),
        stands(11, f.book_at, u64::from(year.0)),
    ])
}

/// The first broken rule of a school's facts.
pub(crate) fn broken_school(f: &Facts, school: School, filed: &SchoolFacts) -> Option<Refusal>
    ensures { result ≡ first_broken_of (lines_of f.now school (SchoolFiled filed.now)) }
{
    first_broken(&[
        rule_90(f),
        rule_14(school),
        stands(13, f.code_at, u64::from(filed.code)),
    ])
}

/// The first broken rule of a student's prior use.
pub(crate) fn broken_prior(f: &Facts, school: School, prior: &PriorFacts) -> Option<Refusal>
    ensures { result ≡ first_broken_of (lines_of f.now school (PriorFiled prior.now)) }
{
    let student = prior.student.0;
    first_broken(&[
        rule_90(f),
        rule_14(school),
        over(81, u64::from(prior.units), MOST_UNITS),
        stands(80, f.prior_at, student),
        stands(82, f.pell_at, student),
    ])
}

/// The first broken rule of a record of a correction: the desk of a school has its school on file.
pub(crate) fn broken_amendment(f: &Facts, school: School, amendment: &AmendFacts) -> Option<Refusal>
    ensures { result ≡ first_broken_of (lines_of f.now school (Amend amendment.now)) }
{
    let _ = amendment;
    first_broken(&[rule_90(f), rule_12(f, school).only_if(school.0 > 0)])
}
