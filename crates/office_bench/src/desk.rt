//! The desk that files.
ghost use Rattle.std.specs.Prelude.{◌≡◌, ◌≤◌, IfSome};
ghost use Rattle.aid_types.specs.Ranges.{IsBetween};

use crate::filings::Place;
use crate::tally::Tally;
use aid_filings::{Filing, Response, What};
use aid_types::{Key, School, Student, Year};
use office_index::Office;
use std::alloc::{AllocError, Global};

/// An office, and what came of the filings so far.
#[derive(Drop)]
pub struct Desk {
    office: Office,
    pub tally: Tally,
}

// The cents of a payment, 0 of all else.
fn paid_by(what: &What) -> u64 {
    match what {
        What::Pay(amount) => amount.cents,
        _ => 0,
    }
}

impl Desk {
    /// A desk of an office without filings.
    pub fn new(alloc: Global) -> Self {
        Desk {
            office: Office::new(alloc),
            tally: Tally::default(),
        }
    }

    /// Makes room for so many filings.
    pub fn reserve(&mut self, filings: u32) -> Result<(), AllocError> {
        self.office.reserve(filings)
    }

    /// Files under a key, and counts the verdict.
    pub fn file(&mut self, school: u32, number: u64, what: What) -> Result<(), AllocError>
        requires school { school ≤ 999999 }
        requires number { IsBetween 1 999999999999 number }
    {
        let key = Key {
            school: School(school),
            number,
        };
        let cents = paid_by(&what);
        let filing = Filing { key, what };
        self.office.reserve(1)?;
        let response = self.office.judge(&filing);
        if let Response::Admit(outcome) = response {
            self.office.admit_with(filing, outcome);
        }
        self.tally.count(cents, response);
        Ok(())
    }

    /// Files under the number after that of as many filings as were counted.
    pub fn file_next(&mut self, school: u32, what: What) -> Result<(), AllocError>
        requires { school ≤ 999999 }
    {
        let number = 1 + u64::from(self.tally.filings());
        self.file(school, number, what)
    }

    /// The quote of a student's term in cents, where it is above 0.
    pub fn quote(&self, student: Student, place: Place) -> Option<u64>
        ensures { IfSome result (λ cents. cents ≤ 99999999) }
    {
        let school = School(place.school);
        match self
            .office
            .quote(school, student, Year(place.year), place.term)
        {
            0 => None,
            cents => Some(cents),
        }
    }
}
