//! The filings of awards.
ghost use Rattle.std.specs.Prelude.{◌≡◌, ◌≤◌, ◌<◌, ◌^◌, IfOk, length, sum};
ghost use Rattle.aid_types.specs.Ranges.{IsBetween};
ghost use Rattle.law_funds.specs.Rounds.{AreWithinNeeds};
ghost use Rattle.work_rounds.specs.Plans.{AreAwarded};

use crate::words::RoundRequest;
use aid_types::Key;
use law_funds::Candidate;
use law_work::{DollarFacts, WorkFiling, WorkWhat};
use std::alloc::{AllocError, Global};

/// The filings of the awards above 0, in the order of the candidates, under consecutive numbers of the school. An `Err` is want
/// of memory.
pub(crate) fn awards(
    alloc: Global,
    request: &RoundRequest,
    candidates: &[Candidate],
    awards: &[u32],
) -> Result<Vec<WorkFiling>, AllocError>
    requires in_range { IsBetween 1 999999000000 request.now.number }
    requires count { length awards.now ≡ length candidates.now }
    requires within { AreWithinNeeds candidates.now awards.now }
    requires fund { sum awards.now ≤ 9999999 }
    ensures awards { IfOk result (λ filings. AreAwarded request.now request.now.number candidates.now awards.now filings.items) }
    ensures few { IfOk result (λ filings. length filings.items < 2 ^ 32) }
{
    let mut filings = Vec::new(alloc);
    let mut number = request.number;
    for index in 0..candidates.len() {
        let candidate = &candidates[index];
        let award = &awards[index];
        if *award > 0 {
            let facts = DollarFacts {
                student: candidate.student,
                year: request.year,
                dollars: *award,
            };
            filings.push(WorkFiling {
                key: Key {
                    school: request.school,
                    number,
                },
                what: WorkWhat::Award(facts),
            })?;
            number += 1;
        }
    }
    Ok(filings)
}
