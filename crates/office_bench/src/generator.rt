//! A fixed sequence of numbers, and what is drawn of it.
ghost use Rattle.std.specs.Prelude.{◌<◌};
ghost use Rattle.aid_types.specs.Ranges.{IsBetween};

use crate::filings::{FIRST_YEAR, Place};

/// A linear congruential sequence.
#[derive(Drop)]
pub struct Sequence(u64);

/// What is drawn for a student of the generated year.
#[derive(Clone, Copy)]
pub struct Draws {
    /// The first term of the first year, at one of four schools.
    pub place: Place,
    /// The parents' adjusted gross income in dollars, below 120,000.
    pub agi: u32,
    /// The credits in the term: 3 to 12.
    pub credits: u8,
    /// The days from the first of the term to the last of attendance, below 100, where the student withdraws.
    pub withdrawn: Option<u8>,
    pub ghost agi_in_range: { agi < 120000 },
}

impl Sequence {
    pub fn new() -> Self {
        Sequence(1)
    }

    // The next number, below 2^32.
    fn draw(&mut self) -> u64 {
        self.0 = self
            .0
            .wrapping_mul(6_364_136_223_846_793_005)
            .wrapping_add(1_442_695_040_888_963_407);
        self.0 >> 32
    }

    /// The four draws of the next student.
    pub fn draws(&mut self) -> Draws {
        let place = Place {
            school: self.school(),
            year: FIRST_YEAR,
            term: 1,
        };
        let agi = (self.draw() % 120_000) as u32;
        let credits = self.credits();
        let last = self.draw();
        let withdrawn = if last % 16 == 0 {
            Some((last / 16 % 100) as u8)
        } else {
            None
        };
        Draws {
            place,
            agi,
            credits,
            withdrawn,
        }
    }

    /// An income of parents in dollars, below 60,000, with which every award is above 0.
    pub fn low_income(&mut self) -> u32
        ensures { result < 60000 }
    {
        (self.draw() % 60_000) as u32
    }

    /// Credits in a term: 3 to 12.
    pub fn credits(&mut self) -> u8 {
        3 + (self.draw() % 10) as u8
    }

    /// One of the eight terms of one of four years at one of four schools.
    pub fn place(&mut self) -> Place {
        Place {
            school: self.school(),
            year: FIRST_YEAR + (self.draw() % 4) as u16,
            term: 1 + (self.draw() % 8) as u8,
        }
    }

    // The code of one of four schools.
    fn school(&mut self) -> u32
        ensures { IsBetween 101 104 result }
    {
        101 + (self.draw() % 4) as u32
    }
}
