//! What came of the filings.
ghost use Rattle.std.specs.Prelude.{◌≤◌};

use aid_filings::{Outcome, Response};
use std::fmt;

/// How many filings were accepted and refused, and the cents of the Pell payments and of the schools' returns among the
/// accepted ones.
#[derive(Clone, Copy, Default)]
pub struct Tally {
    accepted: u32,
    refused: u32,
    pell: u64,
    returned: u64,
}

impl Tally {
    /// Counts a verdict on a filing that pays these cents of Pell. What stands already is accepted, and adds to neither sum.
    pub fn count(&mut self, cents: u64, response: Response) {
        match response {
            Response::Admit(outcome) => {
                self.accepted = self.accepted.wrapping_add(1);
                self.pell = self.pell.wrapping_add(cents);
                if let Outcome::Returned { school, .. } = outcome {
                    self.returned = self.returned.wrapping_add(school);
                }
            }
            Response::Again { .. } => self.accepted = self.accepted.wrapping_add(1),
            _ => self.refused = self.refused.wrapping_add(1),
        }
    }

    /// The filings that were counted.
    pub fn filings(&self) -> u32 {
        self.accepted.wrapping_add(self.refused)
    }
}

impl fmt::Display for Tally {
    fn fmt<W: fmt::Write>(&self, f: &mut fmt::Formatter<W>) -> fmt::Result {
        writeln!(f, "accepted {}", self.accepted)?;
        writeln!(f, "refused {}", self.refused)?;
        writeln!(f, "pell {}.{:02}", self.pell / 100, self.pell % 100)?;
        write!(
            f,
            "returned {}.{:02}",
            self.returned / 100,
            self.returned % 100
        )
    }
}
