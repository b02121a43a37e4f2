//! The student's term at a school that a filing is about.
ghost use Rattle.std.specs.Prelude.{◌≡◌};
ghost use Rattle.office_history.specs.Own.{is_place, own_place};

use aid_filings::{Amount, Filing, What};
use aid_types::{School, Student, Year};

/// A student's term at a school.
#[derive(Clone, Copy, PartialEq, Eq)]
pub struct Place {
    pub school: School,
    pub student: Student,
    pub year: Year,
    pub term: u8,
}

impl Place {
    /// The term in which a filing moves money, or says that it was sent back; `None` where it does neither.
    pub fn of(filing: &Filing) -> Option<Place>
        ensures { result ≡ own_place filing.now.key filing.now.what }
    {
        let school = filing.key.school;
        match &filing.what {
            What::Pay(amount) | What::Repay(amount) | What::Adjust(amount) => Some(Place {
                school,
                student: amount.student,
                year: amount.year,
                term: amount.term,
            }),
            What::Withdraw(facts) => Some(Place {
                school,
                student: facts.student,
                year: facts.year,
                term: facts.term,
            }),
            What::Sent(sent) => Some(Place {
                school,
                student: sent.student,
                year: sent.year,
                term: sent.term,
            }),
            _ => None,
        }
    }

    /// Whether both are the same.
    pub fn is(&self, other: &Place) -> bool
        ensures { result ≡ is_place self.now other.now }
    {
        self.school == other.school
            && self.student == other.student
            && self.year == other.year
            && self.term == other.term
    }
}
