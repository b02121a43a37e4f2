//! The lifetime units that cents of a Scheduled Award use, and the cents that units leave.
ghost use Rattle.std.specs.Prelude.{◌≡◌, ◌+◌, ◌*◌, ◌<◌, ◌≤◌, ◌↔◌, ℕ};
ghost use Rattle.law_terms.specs.Used.{use_of as use_in_units};

use aid_types::nearest_whole;

/// The lifetime limit in units: six Scheduled Awards (HEA 401(d)(5)).
pub const MOST_UNITS: u32 = 600_000;

/// The lifetime units, thousandths of a percent, that so many net cents of Pell use of a year's Scheduled Award in
/// dollars: 100,000 where all of it is paid, none where nothing is paid (HEA 401(d)(5)). At most one and a half Scheduled
/// Awards are paid in a year, so nothing where there is none.
#[tactic(auto, unfolding(crate::specs::Used::use_of))]
pub fn use_of(paid: u64, scheduled: u32) -> u32
    requires within { paid ≤ 150 * scheduled }
    ensures value { result ≡ use_in_units paid scheduled }
    ensures at_most { result ≤ 150000 }
{
    if paid == 0 {
        return 0;
    }
    nearest_whole(paid * 1000, u64::from(scheduled)) as u32
}

/// The most net cents of a Scheduled Award in dollars that use at most so many lifetime units. A year's use is rounded to
/// the nearest unit, so it is within so many units as long as it is less than half a unit more (HEA 401(d)(5)).
pub fn most_cents(scheduled: u32, units: u32) -> u64
    requires awarded { 0 < scheduled }
    requires within { units ≤ 600000 }
    ensures { (cents : ℕ) → (cents ≤ result) ↔ (use_in_units cents scheduled ≤ units) }
{
    (u64::from(scheduled) * (2 * u64::from(units) + 1) - 1) / 2000
}
