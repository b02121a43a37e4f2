//! The limits on amounts: of a term, of a year, of a lifetime and of the cost of attendance.
ghost use Rattle.std.specs.Prelude.{◌≡◌, ◌+◌, ◌*◌, ◌≤◌, [], ◌∷◌};
ghost use Rattle.aid_types.specs.Ranges.{IsBetween};
ghost use Rattle.law_terms.specs.Terms.{intensity_of, payment_of};
ghost use Rattle.law_rules.specs.InRange.{AreFactsInRange};
ghost use Rattle.law_terms.specs.Used.{use_of as use_in_units};
ghost use Rattle.aid_types.specs.RuleLines.{first_broken as first_broken_of};
ghost use Rattle.law_rules.specs.Rules.{is_half_time_extra};
ghost use Rattle.law_rules.specs.Lines.{
  past_cost as past_cost_of,
  past_fseog as past_fseog_of,
  past_lifetime,
  past_payment,
  past_year,
  year_limit,
};

use crate::facts::Facts;
use aid_types::{Refusal, RuleLine, first_broken, over};
use law_terms::{intensity, period_pay, use_of};

/// The lifetime limit of Pell Grants in units of a thousandth of a percent: six Scheduled Awards (HEA 401(d)(5)).
pub const MOST_UNITS: u64 = 600_000;

/// The greatest FSEOG award of a student in a year, 4,000 dollars in cents (HEA 413B(a)(2)).
const MOST_FSEOG: u64 = 400_000;

/// The least enrollment intensity of half-time in percent (34 CFR 668.2(b)).
const HALF_TIME: u8 = 50;

/// The rules under which the limits on Pell are told: of a term's payment, of the year and of the lifetime.
#[derive(Clone, Copy)]
pub(crate) struct PellRules {
    pub term: u16,
    pub year: u16,
    pub lifetime: u16,
}

/// The Pell payment of one term in cents at so many credits (34 CFR 690.63(b)).
pub fn payment_at(scheduled: u32, credits: u8, full: u8, terms: u8) -> u64
    requires award { scheduled ≤ 100000 }
    requires credits { IsBetween 1 40 credits }
    requires full { IsBetween 1 40 full }
    requires terms { IsBetween 2 3 terms }
    ensures { result ≡ 100 * payment_of scheduled (intensity_of credits full) terms }
{
    100 * u64::from(period_pay(scheduled, intensity(credits, full), terms))
}

/// Whether the term is one beyond the main terms, of at least half-time.
fn is_half_time_extra_term(f: &Facts) -> bool
    requires credits { IsBetween 1 40 f.now.credits }
    requires full { IsBetween 1 40 f.now.full }
    ensures { result ≡ is_half_time_extra f.now.term (intensity_of f.now.credits f.now.full) }
{
    match &f.term {
        Some(term) => term.extra && intensity(f.credits, f.full) >= HALF_TIME,
        None => false,
    }
}

/// The year's limit on Pell in cents: the Scheduled Award, and half as much again where the term is one beyond the main
/// terms, of at least half-time (HEA 401(b)).
pub fn limit_of_year(f: &Facts) -> u64
    requires credits { IsBetween 1 40 f.now.credits }
    requires full { IsBetween 1 40 f.now.full }
    ensures value { result ≡ year_limit f.now }
    ensures at_most { result ≤ 150 * f.now.scheduled }
{
    if is_half_time_extra_term(f) {
        150 * u64::from(f.scheduled)
    } else {
        100 * u64::from(f.scheduled)
    }
}

/// The units that are used of a lifetime where the year has so many cents of Pell.
pub(crate) fn units_used(f: &Facts, paid: u64, scheduled: u32) -> u64
    requires { paid ≤ 150 * scheduled }
    ensures { result ≡ f.now.used_else + use_in_units paid scheduled }
{
    u64::from(f.used_else) + u64::from(use_of(paid, scheduled))
}

/// The first limit on Pell that so many cents more pass, told under these rules: the term's payment, the year's limit,
/// the lifetime limit. Lifetime use is computed of a year within its limit.
pub(crate) fn broken_by_pell(f: &Facts, rules: PellRules, cents: u64) -> Option<Refusal>
    requires facts { AreFactsInRange f.now }
    requires on_file { f.now.school_at ≡ 0 → ⊥ }
    requires enrolled { 1 ≤ f.now.credits }
    requires amount { cents ≤ 99999999 }
    ensures { result ≡ first_broken_of (past_payment rules.term f.now cents ∷ past_year rules.year f.now cents ∷ past_lifetime rules.lifetime f.now cents ∷ []) }
{
    let payment = payment_at(f.scheduled, f.credits, f.full, f.terms);
    let paid = f.pell_year + cents;
    first_broken(&[
        over(rules.term, f.pell_term + cents, payment),
        over(rules.year, paid, limit_of_year(f)),
    ])
    .or_else(|| {
        let used = units_used(f, paid, f.scheduled);
        first_broken(&[over(rules.lifetime, used, MOST_UNITS)])
    })
}

/// So many cents of FSEOG more pass the year's limit (HEA 413B(a)(2)), one over all schools, told under this rule.
pub(crate) fn past_fseog(rule: u16, f: &Facts, cents: u64) -> RuleLine
    requires facts { AreFactsInRange f.now }
    requires amount { cents ≤ 99999999 }
    ensures { result ≡ past_fseog_of rule f.now cents }
{
    over(rule, f.fseog_year + cents, MOST_FSEOG)
}

/// So many cents more of any program pass the cost of attendance (HEA 401(b)(3) for Pell; own for all programs together),
/// told under this rule.
pub(crate) fn past_cost(rule: u16, f: &Facts, cents: u64) -> RuleLine
    requires facts { AreFactsInRange f.now }
    requires amount { cents ≤ 599999994 }
    ensures { result ≡ past_cost_of rule f.now cents }
{
    let cost = 100 * u64::from(f.cost);
    over(rule, f.net_all + cents, cost)
}
