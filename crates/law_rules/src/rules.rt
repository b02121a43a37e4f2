//! The rules that several kinds of filings share.
ghost use Rattle.std.specs.Prelude.{◌≡◌, ◌==◌, IsNone};
ghost use Rattle.law_rules.specs.Lines.{standing_lines};
ghost use Rattle.aid_types.specs.RuleLines.{first_broken as first_broken_of, lacks as lacks_of, over as over_of, stands as stands_of, where_true as where_true_of};
ghost use Rattle.law_rules.specs.Rules.{rule_90 as rule_90_of};

use crate::facts::Facts;
use aid_types::{
    Refusal, RuleLine, School, Student, Year, first_broken, lacks, over, stands, where_true,
};

/// The greatest number of filings that an office holds: the office's own.
pub const MOST_FILINGS: u32 = 1_000_000;

/// The office is full.
pub(crate) fn rule_90(f: &Facts) -> RuleLine
    ensures { result ≡ rule_90_of f.now.filings }
{
    let most = u64::from(MOST_FILINGS);
    where_true(90, f.filings >= MOST_FILINGS, most, most)
}

/// The school is unknown.
pub(crate) fn rule_12(f: &Facts, school: School) -> RuleLine
    ensures { result ≡ lacks_of 12 f.now.school_at school 0 }
{
    lacks(12, f.school_at, u64::from(school.0), 0)
}

/// The office's own desk alone files this.
pub(crate) fn rule_14(school: School) -> RuleLine
    ensures { result ≡ over_of 14 school 0 }
{
    over(14, u64::from(school.0), 0)
}

/// The school has no such term on file.
pub(crate) fn rule_30(f: &Facts, number: u8) -> RuleLine
    ensures { result ≡ lacks_of 30 f.now.term_at number 0 }
{
    lacks(30, f.term_at, u64::from(number), 0)
}

/// The student has no application of the year on file.
pub(crate) fn rule_31(f: &Facts, student: Student, year: Year) -> RuleLine
    ensures { result ≡ lacks_of 31 f.now.transaction student year }
{
    lacks(31, f.transaction, student.0, u64::from(year.0))
}

/// The student has withdrawn from the term.
pub(crate) fn rule_34(f: &Facts, number: u8) -> RuleLine
    ensures { result ≡ stands_of 34 f.now.withdrawn_at number }
{
    stands(34, f.withdrawn_at, u64::from(number))
}

/// The student isn't enrolled in the term, told under this rule.
pub(crate) fn not_enrolled(rule: u16, f: &Facts, student: Student, term: u8) -> RuleLine
    ensures { result ≡ lacks_of rule f.now.credits student term }
{
    lacks(rule, u32::from(f.credits), student.0, u64::from(term))
}

/// There is no amount.
pub(crate) fn rule_71(cents: u64) -> RuleLine
    ensures { result ≡ where_true_of 71 (cents == 0) 0 1 }
{
    where_true(71, cents == 0, 0, 1)
}

/// The first broken rule of a payment and of a withdrawal alike, on what is on file of the school, the term and the student:
/// last, rule 50 on the cost of attendance there.
pub(crate) fn broken_on_file(
    f: &Facts,
    school: School,
    student: Student,
    year: Year,
    term: u8,
) -> Option<Refusal>
    ensures value { result ≡ first_broken_of (standing_lines f.now school student year term) }
    ensures on_file { IsNone result → f.now.school_at ≡ 0 → ⊥ }
{
    first_broken(&[
        rule_90(f),
        rule_12(f, school),
        rule_30(f, term),
        rule_31(f, student, year),
        lacks(50, f.cost_at, student.0, u64::from(school.0)),
    ])
}
