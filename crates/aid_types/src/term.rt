//! The terms of a school's year.
ghost use Rattle.std.specs.Prelude.{◌≡◌, ◌<◌, ◌≤◌, [], ◌∷◌, ◌++◌, length};
ghost use Rattle.aid_types.specs.Ranges.{IsBetween};

use crate::day::Day;
use std::marker::Model;

/// The breaks of a term, at most eight, each by its first and its last day. A contract sees the list.
#[derive(Clone, Copy, PartialEq, Eq)]
pub struct Breaks {
    days: [(Day, Day); 8],
    count: usize,
}

impl Model for Breaks {
    ghost use Rattle.std.specs.Prelude.{ℕ, List, length, take};
    ghost use Rattle.aid_types.specs.Filled.{filled, IsFilled};

    ghost Value = { List (ℕ × ℕ) };

    ghost view = { λ b. take b.count b.days };

    ghost invariant = { λ b. IsFilled 8 (25567, 25567) b.count b.days };

    ghost inverse = { λ xs. record { days = filled 8 (25567, 25567) xs; count = length xs } };
}

impl Breaks {
    /// No breaks.
    pub fn new() -> Self
        ensures { result ≡ [] }
    {
        Breaks {
            days: [(Day(0), Day(0)); 8],
            count: 0,
        }
    }

    pub fn len(&self) -> usize
        ensures value { result ≡ length self.now }
        ensures at_most { result ≤ 8 }
    {
        self.count
    }

    pub fn as_slice(&self) -> &[(Day, Day)]
        ensures { result.now ≡ self.now }
    {
        &self.days[..self.count]
    }

    /// Adds a break at the end.
    pub fn push(&mut self, first: Day, last: Day)
        requires { length self.old < 8 }
        ensures { self.new ≡ self.old ++ (first, last) ∷ [] }
    {
        self.days[self.count] = (first, last);
        self.count += 1;
    }
}

/// A term, as a school filed it: its number in the year, 1 to 8, and whether it is one beyond the main terms.
#[derive(Clone, Copy, PartialEq, Eq)]
pub struct Term {
    pub number: u8,
    pub extra: bool,
    pub first: Day,
    pub last: Day,
    pub breaks: Breaks,
    pub ghost in_range: { IsBetween 1 8 number },
}
