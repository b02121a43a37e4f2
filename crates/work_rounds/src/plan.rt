//! A round on the desk's list, and the awards that it files.
ghost use Rattle.std.specs.Prelude.{◌≡◌, ◌≤◌, ◌<◌, ◌^◌, IfOk, length, map};
ghost use Rattle.std.specs.Vec.Iter.{into_iter_items};
ghost use Rattle.aid_types.specs.Ranges.{IsBetween};
ghost use Rattle.log_session.specs.Asks.{rows_of_asks};
ghost use Rattle.work_rounds.specs.Plans.{IsPlanned, left_line as left_line_of, round_texts};

use crate::awards::awards;
use crate::gather::gather;
use crate::order::sort_candidates;
use crate::rows::RoundForm;
use crate::words::RoundRequest;
use crate::{PlannedRound, RoundPlan};
use format_rows::{RowError, TextRows, put_error};
use law_funds::{Policy, Rule, round};
use law_work::{WorkFiling, WorkOutcome};
use log_machine::Rows;
use log_rules::{RuleMachine, RuleResponse, put_answer};
use log_runs::number_line;
use std::alloc::{AllocError, Global};
use std::vec::IntoIter;
use work_study::{FundBalances, WorkStudy};

/// The awards of a round that weren't filed yet.
#[derive(Drop)]
pub struct RoundRows {
    filings: IntoIter<WorkFiling>,
    ghost few: { length (into_iter_items filings) < 2 ^ 32 },
}

impl Rows<RuleMachine<WorkStudy>> for RoundRows {
    ghost use Rattle.std.specs.Prelude.{[]};
    ghost use Rattle.std.specs.Vec.Iter.{into_iter_items};
    ghost use Rattle.log_session.specs.Asks.{rows_of_asks};
    ghost use Rattle.work_rounds.specs.Plans.{round_texts};

    type RowFormat = ();

    type Error = RowError;

    ghost texts = { round_texts };

    ghost rows_of = { λ forms text. [] };

    ghost left = { λ r. map round_texts.said (rows_of_asks (into_iter_items r.filings)) };

    fn at_most(&self) -> u32 {
        self.filings.len() as u32
    }

    fn most() -> u32 {
        200_000
    }

    fn next(&mut self) -> Result<Option<Result<WorkFiling, RowError>>, AllocError> {
        match self.filings.next() {
            Some(filing) => Ok(Some(Ok(filing))),
            None => Ok(None),
        }
    }

    fn put_answer(
        number: u32,
        front: u32,
        response: &RuleResponse<WorkOutcome>,
        out: &mut Vec<u8>,
    ) -> Result<(), AllocError> {
        put_answer::<WorkStudy>(number, front, response, out)
    }

    fn put_error(error: &RowError, out: &mut Vec<u8>) -> Result<(), AllocError> {
        put_error(error, out)
    }
}

/// A round with the policy of its school (34 CFR 675.10). The number of the first award's key is 1 to 999,999,000,000.
#[derive(Drop)]
pub struct WorkRound<'a> {
    pub request: RoundRequest,
    pub policy: &'a Policy,
    pub ghost in_range: { IsBetween 1 999999000000 request.number },
}

// The last line of a round: what is left of the fund.
fn left_line(alloc: Global, left: u32) -> Result<Vec<u8>, AllocError>
    ensures { IfOk result (λ line. line.items ≡ left_line_of left) }
{
    Vec::from_slice(alloc, number_line("left ", u64::from(left)).as_bytes())
}

// Plans a round of the rows that a text has.
fn plan_round(
    alloc: Global,
    text: Vec<u8>,
    desk: &RuleMachine<WorkStudy>,
    request: &RoundRequest,
    policy: &Policy,
) -> Result<PlannedRound<RoundRows>, AllocError>
    requires short { length text.items ≤ 16777216 }
    requires in_range { IsBetween 1 999999000000 request.now.number }
    ensures planned { IfOk result (λ planned. IsPlanned (⟦<Rule as Fn(u32, i32, u8) -> u32>⟧.post policy.now.rule) request.now text.items desk.now.list
        planned.heading.items (into_iter_items planned.rows.filings) planned.closing.items) }
    ensures few { IfOk result (λ planned. length (into_iter_items planned.rows.filings) < 2 ^ 32) }
{
    let rows: TextRows<RoundForm> = TextRows::new(alloc, text);
    let mut gathered = gather(alloc, rows, desk, request)?;
    sort_candidates(&mut gathered.candidates);
    let rest = desk.rest(request.school, request.year);
    let awarded = round(alloc, rest, gathered.candidates.as_slice(), policy)?;
    let filings = awards(
        alloc,
        request,
        gathered.candidates.as_slice(),
        awarded.awards.as_slice(),
    )?;
    let closing = left_line(alloc, awarded.left)?;
    Ok(PlannedRound {
        heading: gathered.heading,
        rows: RoundRows {
            filings: filings.into_iter(),
        },
        closing,
    })
}

impl<'a> RoundPlan<RuleMachine<WorkStudy>> for WorkRound<'a> {
    ghost use Rattle.work_rounds.specs.Plans.{round_plans};

    type Rows = RoundRows;

    ghost plans = { λ round. round_plans (post (round.policy.now.rule.vtable, round.policy.now.rule.value)) round.request };

    ghost apart = { λ one other same. same };

    fn plan(
        &self,
        alloc: Global,
        text: Vec<u8>,
        machine: &RuleMachine<WorkStudy>,
    ) -> Result<PlannedRound<RoundRows>, AllocError> {
        plan_round(alloc, text, machine, &self.request, self.policy)
    }
}
