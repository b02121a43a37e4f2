//! Whom a fund may award.
ghost use Rattle.std.specs.Prelude.{◌≡◌, ◌≢◌, ◌<◌, ◌≤◌, true, IfOk, IfSome, IsNone, length};
ghost use Rattle.std.specs.List.{Any, Contains};
ghost use Rattle.office_history.specs.Positions.{cost_at, full_of};
ghost use Rattle.office_history.specs.Past.{the_school};
ghost use Rattle.law_funds.specs.Order.{IsInOrder};
ghost use Rattle.law_funds.specs.declared.candidate.Candidate.{Candidate as AnyCandidate};
ghost use Rattle.office_rounds.specs.Candidates.{AreCandidates, IsCandidate, is_alike, need_of, originated as originated_in};

use crate::fund::granted_in_term;
use crate::request::RoundRequest;
use aid_filings::{Filing, What};
use aid_types::{School, Student};
use law_funds::Candidate;
use law_terms::intensity;
use office_index::Office;
use std::alloc::{AllocError, Global};

/// The candidates of a round in the order of awards. An `Err` is want of memory.
pub(crate) fn candidates(
    alloc: Global,
    office: &Office,
    request: &RoundRequest,
) -> Result<Vec<Candidate>, AllocError>
    ensures candidates { IfOk result (λ cs. AreCandidates office.now.history request.now cs.items) }
    ensures few { IfOk result (λ cs. length cs.items ≤ 1000000) }
{
    // The front tells that the history is legal.
    let _filings = office.front();
    let mut candidates = Vec::new(alloc);
    for filing in office.filings() {
        if let Some(student) = originated(filing, request) {
            if let Some(candidate) = candidate(office, request, student) {
                candidates.push(candidate)?;
            }
        }
    }
    sort_candidates(&mut candidates);
    Ok(candidates)
}

// The student of an origination at the school in the year.
fn originated(filing: &Filing, request: &RoundRequest) -> Option<Student>
    ensures { result ≡ originated_in request.now filing.now.key filing.now.what }
{
    match &filing.what {
        What::Originate(origination)
            if filing.key.school == request.school && origination.year == request.year => {
            Some(origination.student)
        }
        _ => None,
    }
}

// The candidate that an originated student is, if one.
fn candidate(office: &Office, request: &RoundRequest, student: Student) -> Option<Candidate>
    requires { 0 < cost_at office.now.history request.now.school student request.now.year }
    ensures candidate { IfSome result (λ c. IsCandidate office.now.history request.now c) }
    ensures student { IfSome result (λ c. c.student ≡ student) }
    ensures none { IsNone result → (c : AnyCandidate) → IsCandidate office.now.history request.now c → c.student ≢ student }
{
    // The front tells that the history is legal.
    let _filings = office.front();
    let standing = office.standing(student, request.year);
    let place = office.place(request.school, student, request.year, request.term);
    let granted = granted_in_term(office, request, student);
    if standing.transaction == 0 || place.credits == 0 || place.withdrawn_at > 0 || granted > 0 {
        return None;
    }
    Some(Candidate {
        student,
        sai: standing.sai,
        need: need(office, request, student),
        intensity: intensity(place.credits, full_time(office, request.school)),
    })
}

// The full-time credits of a school.
fn full_time(office: &Office, school: School) -> u8
    ensures { result ≡ full_of (the_school office.now.history school) }
{
    office.school(school.0).full
}

// A student's need in whole dollars.
fn need(office: &Office, request: &RoundRequest, student: Student) -> u32
    ensures value { result ≡ need_of office.now.history request.now student }
    ensures at_most { result ≤ 999999 }
{
    let row = office.school_year(request.school, student, request.year);
    ((100 * u64::from(row.cost)).saturating_sub(row.net) / 100) as u32
}

// Sorts candidates in the order of awards, and keeps one of those whom it doesn't tell apart.
fn sort_candidates(candidates: &mut Vec<Candidate>)
    ensures order { IsInOrder candidates.new.items }
    ensures only { (c : AnyCandidate) → Contains candidates.new.items c → Contains candidates.old.items c }
    ensures kept { (c : AnyCandidate) → Contains candidates.old.items c → Any (λ d. is_alike c d ≡ true) candidates.new.items }
    ensures few { length candidates.new.items ≤ length candidates.old.items }
{
    candidates.sort_unstable_by_key(|candidate| (candidate.sai, candidate.student.0));
    candidates.dedup_by_key(|candidate| (candidate.sai, candidate.student.0));
}
