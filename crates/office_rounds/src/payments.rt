//! The payments of awards.
ghost use Rattle.std.specs.Prelude.{◌≡◌, ◌≤◌, IfOk, length};
ghost use Rattle.aid_types.specs.Ranges.{IsBetween};
ghost use Rattle.law_funds.specs.Rounds.{AreWithinNeeds};
ghost use Rattle.office_rounds.specs.Payments.{ArePayments, IsPayment};

use crate::request::RoundRequest;
use aid_filings::{Amount, Filing, What};
use aid_types::{Key, Program, Student};
use law_funds::Candidate;
use std::alloc::{AllocError, Global};

/// The payments of the awards above 0, in the order of the candidates, under consecutive numbers of the school. An `Err` is want
/// of memory.
pub(crate) fn payments(
    alloc: Global,
    request: &RoundRequest,
    candidates: &[Candidate],
    awards: &[u32],
) -> Result<Vec<Filing>, AllocError>
    requires few { length candidates.now ≤ 1000000 }
    requires count { length awards.now ≡ length candidates.now }
    requires within { AreWithinNeeds candidates.now awards.now }
    ensures payments { IfOk result (λ filings. ArePayments request.now request.now.number candidates.now awards.now filings.items) }
    ensures few { IfOk result (λ filings. length filings.items ≤ 1000000) }
{
    let mut filings = Vec::new(alloc);
    let mut number = request.number;
    for index in 0..candidates.len() {
        let candidate = &candidates[index];
        let award = &awards[index];
        if *award > 0 {
            filings.push(payment(request, number, candidate.student, *award))?;
            number += 1;
        }
    }
    Ok(filings)
}

// The payment of an award.
fn payment(request: &RoundRequest, number: u64, student: Student, award: u32) -> Filing
    requires number { IsBetween 1 999999999999 number }
    requires award { award ≤ 4000 }
    ensures { IsPayment request.now number student award result }
{
    Filing {
        key: Key {
            school: request.school,
            number,
        },
        what: What::Pay(Amount {
            student,
            year: request.year,
            term: request.term,
            program: Program::Fseog,
            cents: 100 * u64::from(award),
        }),
    }
}
