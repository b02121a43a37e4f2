//! The order of candidates.
ghost use Rattle.std.specs.Prelude.{◌≡◌, ◌≤◌, true, length};
ghost use Rattle.std.specs.List.{Any, Contains};
ghost use Rattle.law_funds.specs.Order.{IsInOrder};
ghost use Rattle.law_funds.specs.declared.candidate.Candidate.{Candidate as AnyCandidate};
ghost use Rattle.work_rounds.specs.Order.{is_alike};

use law_funds::Candidate;

/// Sorts candidates in the order of awards, and keeps one of those whom it doesn't tell apart.
pub(crate) fn sort_candidates(candidates: &mut Vec<Candidate>)
    ensures order { IsInOrder candidates.new.items }
    ensures only { (c : AnyCandidate) → Contains candidates.new.items c → Contains candidates.old.items c }
    ensures kept { (c : AnyCandidate) → Contains candidates.old.items c → Any (λ d. is_alike c d ≡ true) candidates.new.items }
{
    candidates.sort_unstable_by_key(|candidate| (candidate.sai, candidate.student.0));
    candidates.dedup_by_key(|candidate| (candidate.sai, candidate.student.0));
}
