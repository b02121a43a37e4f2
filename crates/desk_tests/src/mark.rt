//! Marks.
ghost use Rattle.std.specs.Prelude.{◌≤◌};
ghost use Rattle.aid_types.specs.Ranges.{IsBetween};

/// A mark of one point and of so many more, at most 200, under a number from 1 to 999,999.
#[derive(Clone, Copy, Debug)]
pub struct Mark {
    pub number: u32,
    pub amount: u8,
    pub ghost numbered: { IsBetween 1 999999 number },
    pub ghost in_range: { amount ≤ 200 },
}

/// The points that are left once a mark stands.
#[derive(Clone, Copy, Debug, PartialEq, Eq)]
pub struct Left {
    pub points: u16,
}
