//! The rules on what a school files of its students: credits, costs, repayments, downward adjustments and returns sent back.
ghost use Rattle.std.specs.Prelude.{◌≡◌, ◌*◌};
ghost use Rattle.aid_types.specs.Ranges.{IsBetween};
ghost use Rattle.aid_filings.specs.declared.filing.What.TheVariants.{Enroll, Originate, Repay, Adjust, Cost, Sent};
ghost use Rattle.law_rules.specs.InRange.{AreFactsInRange};
ghost use Rattle.law_terms.specs.Terms.{intensity_of, payment_of};
ghost use Rattle.law_rules.specs.Lines.{lines_of};
ghost use Rattle.aid_types.specs.RuleLines.{first_broken as first_broken_of, over as over_of};

use crate::facts::Facts;
use crate::limits::payment_at;
use crate::rules::{rule_12, rule_30, rule_31, rule_34, rule_71, rule_90};
use aid_filings::{Amount, EnrollFacts, OriginateFacts, SentFacts};
use aid_types::{
    Refusal, RuleLine, School, first_broken, lacks, over, stands, too_early, where_true,
};

/// The most credits of a student in a term: the office's own.
const MOST_CREDITS: u8 = 40;

/// The first broken rule of a student's credits in a term. What the new credits would pay is computed for credits in range,
/// at a school on file.
pub(crate) fn broken_enrollment(
    f: &Facts,
    school: School,
    enrollment: &EnrollFacts,
) -> Option<Refusal>
    requires { AreFactsInRange f.now }
    ensures { result ≡ first_broken_of (lines_of f.now school (Enroll enrollment.now)) }
{
    let credits = enrollment.credits;
    let is_out_of_range = credits == 0 || credits > MOST_CREDITS;
    first_broken(&[
        rule_90(f),
        rule_12(f, school),
        rule_30(f, enrollment.term),
        where_true(
            32,
            is_out_of_range,
            u64::from(credits),
            u64::from(MOST_CREDITS),
        ),
        rule_34(f, enrollment.term),
    ])
    .or_else(|| first_broken(&[rule_33(f, credits)]))
}

/// More Pell is paid than the new credits give.
fn rule_33(f: &Facts, credits: u8) -> RuleLine
    requires facts { AreFactsInRange f.now }
    requires on_file { f.now.school_at ≡ 0 → ⊥ }
    requires credits { IsBetween 1 40 credits }
    ensures { result ≡ over_of 33 f.now.pell_term (100 * payment_of f.now.scheduled (intensity_of credits f.now.full) f.now.terms) }
{
    over(
        33,
        f.pell_term,
        payment_at(f.scheduled, credits, f.full, f.terms),
    )
}

/// The first broken rule of a student's cost of attendance in a year.
pub(crate) fn broken_origination(
    f: &Facts,
    school: School,
    origination: &OriginateFacts,
) -> Option<Refusal>
    ensures { result ≡ first_broken_of (lines_of f.now school (Originate origination.now)) }
{
    let year = origination.year;
    first_broken(&[
        rule_90(f),
        rule_12(f, school),
        rule_31(f, origination.student, year),
        stands(41, f.cost_at, u64::from(year.0)),
        where_true(42, origination.cost == 0, 0, 1),
    ])
}

/// The first broken rule of a grant repayment by a student.
pub(crate) fn broken_repayment(f: &Facts, school: School, repayment: &Amount) -> Option<Refusal>
    requires { AreFactsInRange f.now }
    ensures { result ≡ first_broken_of (lines_of f.now school (Repay repayment.now)) }
{
    let cents = repayment.cents;
    first_broken(&[
        rule_90(f),
        rule_12(f, school),
        rule_71(cents),
        over(70, f.repaid + cents, f.owed),
    ])
}

/// The first broken rule of a downward adjustment.
pub(crate) fn broken_adjustment(f: &Facts, school: School, adjustment: &Amount) -> Option<Refusal>
    ensures { result ≡ first_broken_of (lines_of f.now school (Adjust adjustment.now)) }
{
    first_broken(&[
        rule_90(f),
        rule_12(f, school),
        rule_30(f, adjustment.term),
        rule_71(adjustment.cents),
        rule_34(f, adjustment.term),
        over(72, adjustment.cents, f.net),
    ])
}

/// The first broken rule of a changed cost of attendance: it stays at or above what is paid of the year at the school.
pub(crate) fn broken_cost(f: &Facts, school: School, changed: &OriginateFacts) -> Option<Refusal>
    ensures { result ≡ first_broken_of (lines_of f.now school (Cost changed.now)) }
{
    let cost = changed.cost;
    first_broken(&[
        rule_90(f),
        rule_12(f, school),
        lacks(50, f.cost_at, changed.student.0, u64::from(school.0)),
        where_true(42, cost == 0, 0, 1),
        over(45, f.net_all, 100 * u64::from(cost)),
    ])
}

/// The first broken rule of a return that was sent back: a withdrawal is on file, it was determined by that day, and no more
/// is sent of a program than it returns (34 CFR 668.22(g), (j)).
pub(crate) fn broken_sending(f: &Facts, school: School, sent: &SentFacts) -> Option<Refusal>
    requires { AreFactsInRange f.now }
    ensures { result ≡ first_broken_of (lines_of f.now school (Sent sent.now)) }
{
    let cents = sent.cents;
    first_broken(&[
        rule_90(f),
        rule_12(f, school),
        lacks(64, f.withdrawn_at, sent.student.0, u64::from(sent.term)),
        rule_71(cents),
        too_early(65, sent.day, f.determined),
        over(66, f.sent + cents, f.returned),
    ])
}
