//! Civil days.
use std::marker::Model;

/// A civil day, by the days since 1970-01-01: 1900-01-01, which is -25,567, to 9999-12-31, which is 2,932,896. A contract
/// sees the count of days since 1900-01-01.
#[derive(Clone, Copy, PartialEq, Eq, Debug)]
pub struct Day(pub i32);

impl Model for Day {
    ghost use Rattle.std.specs.Prelude.{ℕ, pos, neg_ℤ, ◌+ℤ◌, ◌-ℤ◌, unsigned_abs};
    ghost use Rattle.aid_types.specs.Ranges.{IsWithin};

    ghost Value = { ℕ };

    ghost view = { λ d. unsigned_abs (d.0 +ℤ pos 25567) };

    ghost invariant = { λ d. IsWithin (neg_ℤ (pos 25567)) (pos 2932896) d.0 };

    ghost inverse = { λ n. record { 0 = pos n -ℤ pos 25567 } };
}

ghost use Rattle.std.specs.Prelude.{◌≡◌, ◌<◌, ◌≤◌, ◌↔◌, IsTrue};

impl Day {
    /// The day count: days since 1900-01-01.
    pub fn count(self) -> u32
        ensures value { result ≡ self }
        ensures at_most { result ≤ 2958463 }
    {
        (self.0 + 25_567) as u32
    }

    /// Whether this day comes before the other.
    pub fn is_before(self, other: Day) -> bool
        ensures { IsTrue result ↔ (self < other) }
    {
        self.count() < other.count()
    }
}
