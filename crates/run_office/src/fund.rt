// A round of awards that is asked for.
ghost use Rattle.std.specs.Prelude.{◌≡◌, ◌≢◌, ◌≤◌, ◌<◌, ◌^◌, ℕ, false, Err, IsTrue, IfErr, IfOk, OnOk, length, map};
ghost use Rattle.std.specs.Vec.Iter.{into_iter_items};
ghost use Rattle.io_traits.specs.Faults.{Rose};
ghost use Rattle.office_rounds.specs.Planned.{IsPlanned};
ghost use Rattle.office_log.specs.Scheme.{office_scheme};
ghost use Rattle.office_log.specs.Submits.{office_semantics};
ghost use Rattle.log_session.specs.Planned.{Planned};
ghost use Rattle.log_session.specs.Sessions.{is_disk_fault};
ghost use Rattle.log_stamps.specs.Rows.{stamped_texts};
ghost use Rattle.run_office.specs.Rounds.{left_line as left_line_of, round_of as round_of_fund, round_plans, round_texts};

use aid_filings::{Filing, Operation, Response};
use aid_stamps::Stamp;
use arrayvec::ArrayString;
use format_filings::{put_answer, put_error};
use format_rows::RowError;
use io_traits::{Disk, Sink};
use law_funds::{Policy, Rule};
use law_rules::MOST_FILINGS;
use log_machine::Rows;
use log_runs::number_line;
use log_session::{FileStop, SessionStop, file_planned, open};
use log_stamps::StampedRows;
use office_index::Office;
use office_log::{OfficeMachine, StampedOfficeMachine};
use office_rounds::{RoundRequest, plan_round};
use run_words::FundRequest;
use std::alloc::{AllocError, Global};
use std::vec::IntoIter;

/// The payments of a round that weren't filed yet.
#[derive(Drop)]
pub struct RoundRows {
    filings: IntoIter<Filing>,
    ghost few: { length (into_iter_items filings) < 2 ^ 32 },
}

impl Rows<OfficeMachine> for RoundRows {
    ghost use Rattle.std.specs.Prelude.{[]};
    ghost use Rattle.log_session.specs.Asks.{rows_of_asks};
    ghost use Rattle.run_office.specs.Rounds.{asks_of, round_texts};

    type RowFormat = ();

    type Error = RowError;

    ghost texts = { round_texts };

    ghost rows_of = { λ forms text. [] };

    ghost left = { λ r. map round_texts.said (rows_of_asks (asks_of (into_iter_items r.filings))) };

    fn at_most(&self) -> u32 {
        self.filings.len() as u32
    }

    fn most() -> u32 {
        MOST_FILINGS
    }

    fn next(&mut self) -> Result<Option<Result<Operation, RowError>>, AllocError> {
        match self.filings.next() {
            Some(filing) => Ok(Some(Ok(Operation::File(filing)))),
            None => Ok(None),
        }
    }

    fn put_answer(
        number: u32,
        front: u32,
        response: &Response,
        out: &mut Vec<u8>,
    ) -> Result<(), AllocError> {
        put_answer(number, front, response, out)
    }

    fn put_error(error: &RowError, out: &mut Vec<u8>) -> Result<(), AllocError> {
        put_error(error, out)
    }
}

// The round that is asked for.
fn round_of(fund: FundRequest) -> RoundRequest
    ensures { result ≡ round_of_fund fund }
{
    RoundRequest {
        school: fund.school,
        year: fund.year,
        term: fund.term,
        amount: fund.amount,
        number: fund.number,
    }
}

// The last line: what is left of the fund.
fn left_line(left: u32) -> ArrayString<40>
    ensures { result.bytes ≡ left_line_of left }
{
    number_line("left ", u64::from(left))
}

// The payments of a round on an office, and its last line.
fn plan(
    alloc: Global,
    office: &Office,
    request: &RoundRequest,
    policy: &Policy,
) -> Result<(RoundRows, ArrayString<40>), AllocError>
    ensures { IfOk result (λ planned. (left : ℕ) × IsPlanned (⟦<Rule as Fn(u32, i32, u8) -> u32>⟧.post policy.now.rule) office.now.history request.now
        (into_iter_items planned.0.filings) left × (planned.1.bytes ≡ left_line_of left)) }
{
    let planned = plan_round(alloc, office, request, policy)?;
    let rows = RoundRows {
        filings: planned.filings.into_iter(),
    };
    Ok((rows, left_line(planned.left)))
}

/// Opens the journal's office, plans a round on it by a policy, and files its payments under a stamp: the line of each is written
/// before the next is filed, and behind the last what is left of the fund.
pub fn file_round<D: Disk, K: Sink>(
    alloc: Global,
    disk: D,
    fund: FundRequest,
    policy: &Policy,
    stamp: Stamp,
    out: &mut K,
) -> (Result<(), SessionStop>, D)
    ensures planned { Planned D.Disk office_scheme office_semantics (stamped_texts round_texts)
        (round_plans (⟦<Rule as Fn(u32, i32, u8) -> u32>⟧.post policy.now.rule) stamp (round_of_fund fund)) disk result.1
        (record { honest = K.honest out.old; before = K.text out.old; after = K.text out.new }) result.0 }
    ensures write_fault { result.0 ≡ Err (SessionStop.Filing FileStop.Write) → Rose (K.faults out.old) (K.faults out.new) }
    ensures disk_fault { IfErr result.0 (λ stop. IsTrue (is_disk_fault stop) → Rose (D.faults disk) (D.faults result.1)) }
    ensures disk_unmoved { OnOk result.0 (D.faults result.1 ≡ D.faults disk) }
    ensures sink_unmoved { OnOk result.0 (K.faults out.new ≡ K.faults out.old) }
    ensures disk_unmoved_err { IfErr result.0 (λ stop. is_disk_fault stop ≡ false → D.faults result.1 ≡ D.faults disk) }
    ensures sink_unmoved_err { IfErr result.0 (λ stop. stop ≢ SessionStop.Filing FileStop.Write → K.faults out.new ≡ K.faults out.old) }
    ensures disk_later { D.faults disk ≤ D.faults result.1 }
    ensures sink_later { K.faults out.old ≤ K.faults out.new }
    ensures disk_honest { (D.tells result.1).honest ≡ (D.tells disk).honest }
    ensures sink_honest { K.honest out.new ≡ K.honest out.old }
{
    let mut kept = match open::<D, StampedOfficeMachine>(alloc, disk) {
        Ok(kept) => kept,
        Err((error, disk)) => return (Err(SessionStop::Opening(error)), disk),
    };
    let office = kept.machine().inner().office();
    let (rows, closing) = match plan(alloc, office, &round_of(fund), policy) {
        Ok(planned) => planned,
        Err(_) => return (
            Err(SessionStop::Filing(FileStop::NoMemory)),
            kept.into_disk(),
        ),
    };
    match file_planned::<D, K, StampedOfficeMachine, StampedRows<RoundRows>>(
        alloc,
        &mut kept,
        StampedRows { rows, stamp },
        closing.as_bytes(),
        out,
    ) {
        Ok(()) => (Ok(()), kept.into_disk()),
        Err(stop) => (Err(SessionStop::Filing(stop)), kept.into_disk()),
    }
}
