//! The rules on applications and their corrections.
ghost use Rattle.std.specs.Prelude.{◌≡◌};
ghost use Rattle.aid_filings.specs.declared.filing.What.TheVariants.{Apply};
ghost use Rattle.law_rules.specs.Lines.{lines_of, rule_93};
ghost use Rattle.aid_types.specs.RuleLines.{first_broken as first_broken_of};

use crate::facts::Facts;
use crate::limits::{MOST_UNITS, units_used};
use crate::rules::{rule_12, rule_90};
use aid_types::{Application, Refusal, School, first_broken, lacks, over, where_true};

/// The first broken rule of an application or a correction.
pub(crate) fn broken_application(f: &Facts, school: School, filed: &Application) -> Option<Refusal>
    ensures { result ≡ first_broken_of (lines_of f.now school (Apply filed.now)) }
{
    let transaction = u32::from(filed.transaction);
    first_broken(&[
        rule_90(f),
        rule_12(f, school).only_if(school.0 > 0),
        lacks(10, f.book_at, u64::from(filed.year.0), 0),
    ])
    .or(f.unfit)
    .or_else(|| {
        first_broken(&[where_true(
            91,
            transaction <= f.transaction,
            u64::from(transaction),
            u64::from(f.transaction),
        )])
    })
    .or_else(|| broken_by_award(f))
}

/// The first limit that what the student holds passes at the Scheduled Award of the filed application. Lifetime use is
/// computed of a year within its limit.
fn broken_by_award(f: &Facts) -> Option<Refusal>
    ensures { result ≡ first_broken_of (rule_93 f.now) }
{
    let award = u64::from(f.next_scheduled);
    f.term_over
        .or_else(|| {
            first_broken(&[
                over(93, f.pell_main, 100 * award),
                over(93, f.pell_year, 150 * award),
            ])
        })
        .or_else(|| {
            let used = units_used(f, f.pell_year, f.next_scheduled);
            first_broken(&[over(93, used, MOST_UNITS)])
        })
}
