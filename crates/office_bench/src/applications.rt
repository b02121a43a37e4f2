//! A fixed sequence of applications.
ghost use Rattle.std.specs.Prelude.{◌<◌, ◌≤◌};
ghost use Rattle.aid_types.specs.Ranges.{IsAmount};

use aid_types::{Application, Region, Side, Student, Year};

/// A linear congruential sequence.
#[derive(Drop)]
pub struct Sequence(u64);

impl Sequence {
    pub fn new() -> Self {
        Sequence(1)
    }

    // The next number below a bound.
    fn below(&mut self, bound: u64) -> u64
        requires { 0 < bound }
        ensures { result < bound }
    {
        self.0 = self
            .0
            .wrapping_mul(6_364_136_223_846_793_005)
            .wrapping_add(1_442_695_040_888_963_407);
        (self.0 >> 33) % bound
    }

    // The next amount below a bound, in dollars.
    fn amount(&mut self, bound: u64) -> i32
        requires positive { 0 < bound }
        requires in_range { bound ≤ 100000000 }
        ensures { IsAmount result }
    {
        self.below(bound) as i32
    }

    // One yes in eight.
    fn flag(&mut self) -> bool {
        self.below(8) == 0
    }

    // The next household.
    fn side(&mut self) -> Side {
        let agi = self.amount(120_000);
        let untaxed = self.amount(2000);
        let offsets = self.amount(1000);
        let tax = self.amount(15_000);
        let earned = self.amount(100_000);
        let assets = self.amount(60_000);
        let business = self.amount(900_000);
        Side {
            agi,
            ira: untaxed,
            interest: 0,
            ira_untaxed: untaxed,
            pension: 0,
            foreign: 0,
            grants: offsets,
            credits: offsets,
            work_study: 0,
            tax,
            earned_first: earned,
            earned_second: untaxed,
            support: untaxed,
            cash: assets,
            investments: assets,
            business,
        }
    }

    /// The next application.
    pub fn application(&mut self) -> Application {
        let own = self.side();
        let parents = self.side();
        Application {
            student: Student(5001),
            year: Year(2025),
            transaction: 1,
            birth_year: 1970 + self.below(45) as u16,
            region: Region::Contiguous,
            family: 1 + self.below(9) as u8,
            married: self.flag(),
            graduate: false,
            bachelor: self.flag(),
            veteran: self.flag(),
            dependents: self.flag(),
            orphan: false,
            ward: false,
            foster: false,
            emancipated: false,
            homeless: false,
            student_file: !self.flag(),
            own,
            parents_married: !self.flag(),
            parents_file: !self.flag(),
            parent_age: 30 + self.below(60) as u8,
            parents,
        }
    }
}
