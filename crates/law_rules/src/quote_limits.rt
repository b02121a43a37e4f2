//! How many whole dollars of Pell each limit leaves.
ghost use Rattle.std.specs.Prelude.{◌≡◌, ◌≤◌, ◌<◌, ◌+◌, ◌*◌, ◌-◌, ◌/◌, ◌↔◌, ℕ, IsTrue};
ghost use Rattle.aid_types.specs.Ranges.{IsBetween};
ghost use Rattle.law_terms.specs.Used.{use_of};
ghost use Rattle.law_rules.specs.InRange.{AreFactsInRange};
ghost use Rattle.law_rules.specs.QuoteLimits.{IsAffordable, IsMostDollars, IsWithinLimits, IsWithinPost, MayBePaid};

use crate::{Facts, MOST_FILINGS, limit_of_year, payment_at};
use aid_types::Program;
use law_terms::{MOST_UNITS, most_cents};

/// Whether Pell may be paid at all, whatever the amount.
pub(crate) fn may_be_paid(f: &Facts) -> bool
    ensures { IsTrue result ↔ MayBePaid f.now }
{
    f.filings < MOST_FILINGS
        && f.school_at > 0
        && f.term_at > 0
        && f.transaction > 0
        && f.cost_at > 0
        && f.credits > 0
        && f.ceiling_index == 0
        && f.scheduled > 0
        && f.other_school == 0
}

/// The most whole dollars of Pell that stay within all that bounds them.
pub(crate) fn most_dollars(f: &Facts) -> u64
    requires facts { AreFactsInRange f.now }
    requires may_be_paid { MayBePaid f.now }
    ensures { IsMostDollars (IsAffordable f.now) result }
{
    let dollars = limit_dollars(f);
    if f.withdrawn_at == 0 {
        dollars
    } else {
        dollars.min(post_dollars(f))
    }
}

/// The most whole dollars within the limits of the term, the year, the lifetime and the cost of attendance.
fn limit_dollars(f: &Facts) -> u64
    requires facts { AreFactsInRange f.now }
    requires may_be_paid { MayBePaid f.now }
    ensures { IsMostDollars (IsWithinLimits f.now) result }
{
    let cost = 100 * u64::from(f.cost);
    let payment = payment_at(f.scheduled, f.credits, f.full, f.terms);
    let of_term = dollars_between(f.pell_term, payment);
    let of_year = dollars_between(f.pell_year, limit_of_year(f));
    let of_lifetime = dollars_between(f.pell_year, lifetime_cents(f));
    let of_cost = dollars_between(f.net_all, cost);
    of_term.min(of_year).min(of_lifetime).min(of_cost)
}

/// The most cents of the year that are within the lifetime limit, 0 where none is (HEA 401(d)(5)).
fn lifetime_cents(f: &Facts) -> u64
    requires facts { AreFactsInRange f.now }
    requires may_be_paid { MayBePaid f.now }
    ensures { (cents : ℕ) → 0 < cents → (cents ≤ result) ↔ (f.now.used_else + use_of cents f.now.scheduled ≤ 600000) }
{
    match MOST_UNITS.checked_sub(f.used_else) {
        Some(units) => most_cents(f.scheduled, units),
        None => 0,
    }
}

/// The most whole dollars that may be disbursed after a withdrawal: within what could have been disbursed of Pell, and
/// within the post-withdrawal amount of all programs (34 CFR 668.22(a)(6)).
fn post_dollars(f: &Facts) -> u64
    ensures { IsMostDollars (IsWithinPost f.now) result }
{
    let of_pell = dollars_between(f.after, f.could.at(Program::Pell));
    of_pell.min(dollars_between(f.after_all, f.post))
}

/// The most whole dollars between an amount and a limit, both in cents.
#[tactic(auto, using(crate::proofs::Amounts::fits, crate::proofs::Amounts::fits_only))]
fn dollars_between(have: u64, limit: u64) -> u64
    ensures { IsMostDollars (λ cents. have + cents ≤ limit) result }
{
    limit.saturating_sub(have) / 100
}
