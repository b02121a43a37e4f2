//! The rules of the work-study desk, for a list of its filings, and the text of what a filing is admitted with.
ghost use Rattle.law_work.specs.AddsUp.{AddsUp};
ghost use Rattle.work_study.specs.Ruling.{legal_work_adds_up, spells_work, work_has_room, work_ruling};

use crate::table::WorkStudy;
use aid_types::{Key, Refusal};
use arrayvec::ArrayString;
use format_rows::push_cents;
use law_work::{WorkFiling, WorkIndex, WorkOutcome, broken, outcome};
use log_rules::{OfficeRules, OutcomeText};
use std::alloc::{AllocError, Global};

impl OfficeRules for WorkStudy {
    type Outcome = WorkOutcome;

    type Index = WorkIndex;

    ghost ruling = { work_ruling };

    ghost IsWithin = { AddsUp };

    ghost on_file = { λ index. index.history };

    ghost room = { λ index. index.room };

    ghost rows = { spells_work };

    ghost full = { work_has_room };

    ghost legal_within = { legal_work_adds_up };

    fn key(filing: &WorkFiling) -> Key {
        filing.key
    }

    fn new_index(alloc: Global) -> WorkIndex {
        WorkIndex::new(alloc)
    }

    fn reserve(index: &mut WorkIndex, n: u32) -> Result<(), AllocError> {
        index.reserve(n)
    }

    fn judge(index: &WorkIndex, filing: &WorkFiling) -> Result<WorkOutcome, Refusal> {
        let facts = index.facts(filing);
        match broken(&facts, filing) {
            Some(refusal) => Err(refusal),
            None => Ok(outcome(&facts, filing)),
        }
    }

    fn admit(index: &mut WorkIndex, filing: &WorkFiling) {
        index.admit(filing);
    }
}

impl OutcomeText for WorkStudy {
    ghost use Rattle.work_study.specs.Outcomes.{work_text};

    ghost outcome_text = { work_text };

    fn push_outcome(outcome: &WorkOutcome, line: &mut ArrayString<160>) {
        match outcome {
            WorkOutcome::Noted => line.push_str("noted"),
            WorkOutcome::Earned { earned, left } => {
                line.push_str("earned ");
                push_cents(line, *earned);
                line.push_str(" ");
                push_cents(line, *left);
            }
        }
    }
}
