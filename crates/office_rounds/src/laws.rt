//! Laws of rounds, each as the contract of a function that computes nothing. A slice of filings has the oldest first.
ghost use Rattle.std.specs.Prelude.{◌≡◌, ◌≢◌, ◌+◌, ◌*◌, ◌≤◌, [], List, reverse};
ghost use Rattle.law_funds.specs.declared.candidate.Candidate.{Candidate};
ghost use Rattle.office_history.specs.Net.{paid};
ghost use Rattle.office_rounds.specs.Candidates.{AreCandidates};
ghost use Rattle.office_rounds.specs.Fund.{granted, in_fund, rest_of_fund};
ghost use Rattle.office_rounds.specs.Planned.{IsPlanned};

use crate::request::RoundRequest;
use aid_filings::Filing;
use law_funds::{Policy, Rule};

/// A round has one list of candidates.
pub fn one_list_of_candidates(history: &[Filing], request: &RoundRequest)
    ensures { (cs ds : List Candidate) → AreCandidates (reverse history.now) request.now cs → AreCandidates (reverse history.now) request.now ds → cs ≡ ds }
{
    let _ = history;
    let _ = request;
}

/// What a round pays and what it leaves are together what was left of the fund; and what it pays, where it pays something, is with
/// what was granted before it within the amount of the fund. So a round that is run again pays within the same amount.
pub fn round_is_within_fund(
    history: &[Filing],
    request: &RoundRequest,
    policy: &Policy,
    filings: &[Filing],
    left: u32,
)
    requires { IsPlanned (⟦<Rule as Fn(u32, i32, u8) -> u32>⟧.post policy.now.rule) (reverse history.now) request.now filings.now left }
    ensures whole { paid filings.now (in_fund request.now) + 100 * left ≡ 100 * rest_of_fund (reverse history.now) request.now }
    ensures within { filings.now ≢ [] → granted (reverse history.now) request.now + paid filings.now (in_fund request.now) ≤ 100 * request.now.amount }
{
    let _ = history;
    let _ = request;
    let _ = policy;
    let _ = filings;
    let _ = left;
}
