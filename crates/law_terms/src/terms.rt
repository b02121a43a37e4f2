//! The days of a term, enrollment intensity and the payment of a term.
ghost use Rattle.std.specs.Prelude.{◌≡◌, ◌≤◌, ◌*◌, ◌<◌, ◌+◌, ◌-◌, ◌^◌};
ghost use Rattle.aid_types.specs.Ranges.{IsBetween};
ghost use Rattle.law_terms.specs.Terms.{IsLawful, days_upto, intensity_of, payment_of, long_days, shares_day as shares_day_of};

use aid_types::{Day, Term, nearest_whole};

/// Enrollment intensity in percent: credits of a school's full-time credits, at most 100.
#[tactic(auto, unfolding(crate::specs::Terms::intensity_of))]
pub fn intensity(credits: u8, full: u8) -> u8
    requires credits { IsBetween 1 40 credits }
    requires full { IsBetween 1 40 full }
    ensures value { result ≡ intensity_of credits full }
    ensures at_most { result ≤ 100 }
{
    nearest_whole(100 * u64::from(credits), u64::from(full)).min(100) as u8
}

/// The payment of one term in whole dollars: a Scheduled Award at an intensity in percent, over the school's two or
/// three main terms.
#[tactic(auto, unfolding(crate::specs::Terms::payment_of))]
pub fn period_pay(scheduled: u32, intensity: u8, terms: u8) -> u32
    requires award { scheduled ≤ 100000 }
    requires intensity { intensity ≤ 100 }
    requires terms { IsBetween 2 3 terms }
    ensures value { result ≡ payment_of scheduled intensity terms }
    ensures at_most { result ≤ scheduled }
{
    nearest_whole(
        u64::from(scheduled) * u64::from(intensity),
        100 * u64::from(terms),
    ) as u32
}

/// The days of a term from its first to that day, without breaks of at least five days.
#[tactic(auto, unfolding(crate::specs::Terms::days_upto))]
pub fn days(term: &Term, upto: Day) -> u32
    requires lawful { IsLawful term.now }
    requires begun { term.now.first ≤ upto }
    requires inside { upto ≤ term.now.last }
    ensures { result ≡ days_upto term.now upto }
{
    let first = term.first.count();
    let end = upto.count() + 1;
    let mut count = end - first;
    for &(from, to) in term.breaks.as_slice() {
        count -= long_break_days(from.count(), to.count(), first, end);
    }
    count
}

// How many days before `end` a break has, and none where it has fewer than five days in all.
fn long_break_days(from: u32, to: u32, first: u32, end: u32) -> u32
    requires started { first < from }
    requires ordered { from ≤ to }
    requires room { to + 4 < 2 ^ 32 }
    requires span { first ≤ end }
    ensures { result ≡ long_days (from, to) first (end - first) }
{
    if to < from + 4 {
        return 0;
    }
    (to + 1).min(end).saturating_sub(from)
}

/// Whether two terms share a day, breaks included.
pub fn shares_day(term: &Term, other: &Term) -> bool
    ensures { result ≡ shares_day_of term.now other.now }
{
    !other.last.is_before(term.first) && !term.last.is_before(other.first)
}
