//! A round on an office.
ghost use Rattle.std.specs.Prelude.{◌<◌, ◌^◌, IfOk, length};
ghost use Rattle.office_rounds.specs.Planned.{IsPlanned};

use crate::candidates::candidates;
use crate::fund::rest_of_fund;
use crate::payments::payments;
use crate::request::RoundRequest;
use aid_filings::Filing;
use law_funds::{Policy, Rule, round};
use office_index::Office;
use std::alloc::{AllocError, Global};

/// What a round files, and what it leaves of the fund in whole dollars.
#[derive(Drop)]
pub struct PlannedRound {
    pub filings: Vec<Filing>,
    pub left: u32,
}

/// Plans a round of a fund: what is left of it is awarded by a policy to the candidates in their order (HEA 413C(c); 34 CFR 676.10,
/// 676.20), and each award above 0 is a payment. Two passes over the filings, a sort of the candidates and one of the students
/// whom the fund paid before, a fixed number of look-ups for each student originated at the school in the year, and one for each
/// whom the fund paid. An `Err` is want of memory.
pub fn plan_round(
    alloc: Global,
    office: &Office,
    request: &RoundRequest,
    policy: &Policy,
) -> Result<PlannedRound, AllocError>
    ensures planned { IfOk result (λ r. IsPlanned (⟦<Rule as Fn(u32, i32, u8) -> u32>⟧.post policy.now.rule) office.now.history request.now r.filings.items r.left) }
    ensures few { IfOk result (λ r. length r.filings.items < 2 ^ 32) }
{
    let candidates = candidates(alloc, office, request)?;
    let rest = rest_of_fund(alloc, office, request)?;
    let awarded = round(alloc, rest, candidates.as_slice(), policy)?;
    let filings = payments(
        alloc,
        request,
        candidates.as_slice(),
        awarded.awards.as_slice(),
    )?;
    Ok(PlannedRound {
        filings,
        left: awarded.left,
    })
}
