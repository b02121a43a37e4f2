//! What was paid and what was taken back, by program.
ghost use Rattle.std.specs.Prelude.{◌≡◌, ℕ, ◌+◌, ◌-◌, ◌<◌, ◌^◌, slice_index};
ghost use Rattle.aid_types.specs.Programs.{rank};
ghost use Rattle.office_sheets.specs.TermSums.{both as both_of, place_sums, rest as rest_of};

use aid_types::{ByProgram, Program};
use office_history::Place;
use office_index::Office;

/// What was paid and what was taken back, by program, in cents.
#[derive(Clone, Copy)]
pub struct Sums {
    pub paid: ByProgram,
    pub taken: ByProgram,
}

impl Sums {
    /// Nothing moved.
    pub(crate) const EMPTY: Sums = Sums {
        paid: ByProgram::EMPTY,
        taken: ByProgram::EMPTY,
    };

    /// In a student's term at a school.
    pub(crate) fn at(office: &Office, place: &Place) -> Sums
        ensures { result ≡ place_sums office.now.history place.now }
    {
        let row = office.place(place.school, place.student, place.year, place.term);
        Sums {
            paid: row.account.paid,
            taken: row.account.taken,
        }
    }

    /// The sums of both.
    pub(crate) fn both(&self, other: &Sums) -> Sums
        requires paid { (p : ℕ) → slice_index self.now.paid p + slice_index other.now.paid p < 2 ^ 64 }
        requires taken { (p : ℕ) → slice_index self.now.taken p + slice_index other.now.taken p < 2 ^ 64 }
        ensures { result ≡ both_of self.now other.now }
    {
        Sums {
            paid: self.paid.plus(&other.paid),
            taken: self.taken.plus(&other.taken),
        }
    }

    /// What these have more than others.
    pub(crate) fn rest(&self, other: &Sums) -> Sums
        ensures { result ≡ rest_of self.now other.now }
    {
        Sums {
            paid: self.paid.minus(&other.paid),
            taken: self.taken.minus(&other.taken),
        }
    }

    /// The net of a program.
    pub(crate) fn net(&self, program: Program) -> u64
        ensures { result ≡ slice_index self.now.paid (rank program) - slice_index self.now.taken (rank program) }
    {
        self.paid.at(program).saturating_sub(self.taken.at(program))
    }
}
