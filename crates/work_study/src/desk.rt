//! What a round asks of a desk.
ghost use Rattle.std.specs.Prelude.{◌≡◌, List, nat_lt};
ghost use Rattle.law_work.specs.declared.filing.WorkFiling.{WorkFiling};
ghost use Rattle.law_work.specs.Funds.{award_at, rest as rest_of};

use crate::table::WorkStudy;
use aid_types::{School, Student, Year};
use log_rules::RuleMachine;

/// A desk whose funds are awarded of.
pub trait FundBalances {
    /// Its filings, the newest first.
    ghost history: { Self → List WorkFiling };

    /// What is left to award of a fund, in dollars; 0 where there is no fund. It takes no memory.
    fn rest(&self, school: School, year: Year) -> u32
        ensures { result ≡ rest_of (history self.now) school year };

    /// Whether an award of a student there is on file. It takes no memory.
    fn has_award(&self, school: School, student: Student, year: Year) -> bool
        ensures { result ≡ nat_lt 0 (award_at (history self.now) school year student) };
}

impl FundBalances for RuleMachine<WorkStudy> {
    ghost history = { λ list. list.list };

    fn rest(&self, school: School, year: Year) -> u32 {
        self.index().rest(school, year)
    }

    fn has_award(&self, school: School, student: Student, year: Year) -> bool {
        self.index().has_award(school, student, year)
    }
}
