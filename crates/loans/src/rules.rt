//! The rules of the loan desk, for a list of its filings.
ghost use Rattle.law_loans.specs.Within.{IsWithinLoans};
ghost use Rattle.loans.specs.Ruling.{legal_loans_within, loan_ruling, loans_have_room, spells_loans};

use crate::table::Loans;
use aid_types::{Key, Refusal};
use law_loans::{LoanFiling, LoanIndex, LoanOutcome, broken, outcome};
use log_rules::OfficeRules;
use std::alloc::{AllocError, Global};

impl OfficeRules for Loans {
    type Outcome = LoanOutcome;

    type Index = LoanIndex;

    ghost ruling = { loan_ruling };

    ghost IsWithin = { IsWithinLoans };

    ghost on_file = { λ index. index.history };

    ghost room = { λ index. index.room };

    ghost rows = { spells_loans };

    ghost full = { loans_have_room };

    ghost legal_within = { legal_loans_within };

    fn key(filing: &LoanFiling) -> Key {
        filing.key
    }

    fn new_index(alloc: Global) -> LoanIndex {
        LoanIndex::new(alloc)
    }

    fn reserve(index: &mut LoanIndex, n: u32) -> Result<(), AllocError> {
        index.reserve(n)
    }

    fn judge(index: &LoanIndex, filing: &LoanFiling) -> Result<LoanOutcome, Refusal> {
        let facts = index.facts(filing);
        match broken(&facts, filing) {
            Some(refusal) => Err(refusal),
            None => Ok(outcome(&facts, filing)),
        }
    }

    fn admit(index: &mut LoanIndex, filing: &LoanFiling) {
        index.admit(filing);
    }
}
