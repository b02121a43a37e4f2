//! The numbers that name years, students and schools.
ghost use Rattle.std.specs.Prelude.{◌≡◌, ◌<◌};
ghost use Rattle.aid_types.specs.Ranges.{IsBetween};

use std::marker::Model;

/// An award year, by the first of its two calendar years: 2000 to 2099.
#[derive(Clone, Copy, PartialEq, Eq)]
pub struct Year(pub u16);

impl Model for Year {
    ghost use Rattle.std.specs.Prelude.{ℕ};
    ghost use Rattle.aid_types.specs.Ranges.{IsBetween};

    ghost Value = { ℕ };

    ghost view = { λ y. y.0 };

    ghost invariant = { λ y. IsBetween 2000 2099 y.0 };

    ghost inverse = { λ n. record { 0 = n } };
}

/// A student's number: 1 to 999,999,999,999.
#[derive(Clone, Copy, PartialEq, Eq, Debug)]
pub struct Student(pub u64);

impl Model for Student {
    ghost use Rattle.std.specs.Prelude.{ℕ};
    ghost use Rattle.aid_types.specs.Ranges.{IsBetween};

    ghost Value = { ℕ };

    ghost view = { λ s. s.0 };

    ghost invariant = { λ s. IsBetween 1 999999999999 s.0 };

    ghost inverse = { λ n. record { 0 = n } };
}

/// A school's code: 0, the office's own desk, to 999,999.
#[derive(Clone, Copy, PartialEq, Eq)]
pub struct School(pub u32);

impl Model for School {
    ghost use Rattle.std.specs.Prelude.{ℕ, ◌≤◌};

    ghost Value = { ℕ };

    ghost view = { λ s. s.0 };

    ghost invariant = { λ s. s.0 ≤ 999999 };

    ghost inverse = { λ n. record { 0 = n } };
}

/// A program of aid under Title IV, in the order of returns (34 CFR 668.22(i)).
#[derive(Clone, Copy, PartialEq, Eq)]
pub enum Program {
    Unsub,
    Sub,
    Plus,
    Pell,
    Fseog,
    Teach,
}

impl Program {
    ghost use Rattle.aid_types.specs.Programs.{rank as rank_of};

    /// All programs in the order of returns.
    pub const ALL: [Program; 6] = [
        Program::Unsub,
        Program::Sub,
        Program::Plus,
        Program::Pell,
        Program::Fseog,
        Program::Teach,
    ];

    /// Its place in the order of returns, from 0.
    pub fn rank(self) -> usize
        ensures value { result ≡ rank_of self }
        ensures in_range { result < 6 }
    {
        match self {
            Program::Unsub => 0,
            Program::Sub => 1,
            Program::Plus => 2,
            Program::Pell => 3,
            Program::Fseog => 4,
            Program::Teach => 5,
        }
    }
}

/// What names a filing: its school and a number that the school gives it, 1 to 999,999,999,999.
#[derive(Clone, Copy, PartialEq, Eq)]
pub struct Key {
    pub school: School,
    pub number: u64,
    pub ghost in_range: { IsBetween 1 999999999999 number },
}

impl Year {
    /// The first of the award year's two calendar years.
    pub fn number(self) -> u16
        ensures value { result ≡ self }
        ensures in_range { IsBetween 2000 2099 self }
    {
        self.0
    }
}
