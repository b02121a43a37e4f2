//! The quote: the greatest Pell payment that breaks no rule.
ghost use Rattle.std.specs.Prelude.{◌≡◌, ◌≤◌, ◌<◌, ◌*◌, ℕ, None};
ghost use Rattle.law_rules.specs.InRange.{AreFactsInRange};
ghost use Rattle.law_rules.specs.Quote.{greatest_payment};
ghost use Rattle.aid_types.specs.RuleLines.{first_broken};
ghost use Rattle.law_rules.specs.Lines.{payment_lines};

use crate::Facts;
use crate::quote_limits::{may_be_paid, most_dollars};
use aid_types::{School, Student, Year};

/// The greatest amount of a filing in whole dollars.
const MOST_DOLLARS: u64 = 999_999;

/// The greatest Pell payment in cents, of whole dollars, that a school may make to a student in a year's term without
/// breaking a rule, and 0 where there is none. `f` holds the facts of a payment of theirs there: all that decides is among
/// them, and no rule reads the names themselves.
pub fn quote(f: &Facts, school: School, student: Student, year: Year, term: u8) -> u64
    requires in_range { AreFactsInRange f.now }
    ensures value { result ≡ greatest_payment (payment_lines f.now school student year term 3) }
    ensures payable { 0 < result → first_broken (payment_lines f.now school student year term 3 result) ≡ None }
    // Each smaller payment of whole dollars breaks no rule either.
    ensures below { (dollars : ℕ) → 0 < dollars → 100 * dollars ≤ result
        → first_broken (payment_lines f.now school student year term 3 (100 * dollars)) ≡ None }
    ensures at_most { result ≤ 99999900 }
{
    if may_be_paid(f) {
        100 * most_dollars(f).min(MOST_DOLLARS)
    } else {
        0
    }
}
