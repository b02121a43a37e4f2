//! Whom the rows of a round name.
ghost use Rattle.std.specs.Prelude.{◌≡◌, ◌+◌, ◌++◌, ◌∷◌, [], List, Result, IfOk, OnOk, length};
ghost use Rattle.format_rows.specs.Meanings.{said_of};
ghost use Rattle.format_rows.specs.declared.error.RowError.{RowError as RowErrorData};
ghost use Rattle.work_rounds.specs.Gathered.{IsGathered};
ghost use Rattle.work_rounds.specs.Rows.{said_of_candidate};
ghost use Rattle.work_rounds.specs.declared.rows.RoundSaid.{RoundSaid};

use crate::rows::{RoundForm, put_repeated};
use crate::words::RoundRequest;
use format_rows::{RowError, TextRows, put_error};
use law_funds::Candidate;
use log_rules::RuleMachine;
use std::alloc::{AllocError, Global};
use std::collections::BTreeSet;
use work_study::{FundBalances, WorkStudy};

/// What the rows that were taken come to.
#[derive(Drop)]
pub(crate) struct Gathered {
    /// The lines of those that are none.
    pub(crate) heading: Vec<u8>,
    /// Those who may be awarded, in the order of their rows.
    pub(crate) candidates: Vec<Candidate>,
    // The students of all that were read.
    students: BTreeSet<u64>,
}

/// What the rows of a round come to. Students with an award there are passed over. An `Err` is want of memory.
pub(crate) fn gather(
    alloc: Global,
    rows: TextRows<RoundForm>,
    desk: &RuleMachine<WorkStudy>,
    request: &RoundRequest,
) -> Result<Gathered, AllocError>
    ensures { IfOk result (λ all. IsGathered desk.now.list request.now rows all) }
{
    let mut left = rows;
    let mut all = Gathered {
        heading: Vec::new(alloc),
        candidates: Vec::new(alloc),
        students: BTreeSet::new(alloc),
    };
    for before in 0..left.at_most() {
        let Some(row) = left.next()? else {
            return Ok(all);
        };
        all.take(desk, request, before + 1, row)?;
    }
    Ok(all)
}

impl Gathered {
    // Takes the row behind some, its number counting from 1.
    fn take(
        &mut self,
        desk: &RuleMachine<WorkStudy>,
        request: &RoundRequest,
        number: u32,
        row: Result<Candidate, RowError>,
    ) -> Result<(), AllocError>
        ensures { OnOk result ((before : List (Result RoundSaid RowErrorData)) → number ≡ length before + 1 → IsGathered desk.now.list request.now before self.old
            → IsGathered desk.now.list request.now (before ++ said_of said_of_candidate row ∷ []) self.new) }
    {
        match row {
            Ok(candidate) => {
                if !self.students.insert(candidate.student.0)? {
                    put_repeated(number, &mut self.heading)
                } else if desk.has_award(request.school, candidate.student, request.year) {
                    Ok(())
                } else {
                    Ok(self.candidates.push(candidate)?)
                }
            }
            Err(error) => put_error(&error, &mut self.heading),
        }
    }
}
