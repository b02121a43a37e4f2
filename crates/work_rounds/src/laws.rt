//! A law of rounds, as the contract of a function that computes nothing. A list of filings has its newest first.
ghost use Rattle.std.specs.Prelude.{◌≡◌, ◌≢◌, List, ℕ, Some};
ghost use Rattle.std.specs.List.{Contains};
ghost use Rattle.aid_types.specs.declared.award.Refusal.{Refusal};
ghost use Rattle.work_rounds.specs.Plans.{IsPlanned};
ghost use Rattle.work_rounds.specs.declared.words.RoundRequest.{RoundRequest};
ghost use Rattle.law_work.specs.declared.filing.WorkFiling.{WorkFiling};
ghost use Rattle.law_work.specs.Rules.{breaks};

use law_funds::{Policy, Rule};

/// No award of a round by a policy is refused by 213, whatever stands when it is filed.
pub fn no_award_breaks_213(policy: &Policy)
    ensures { (r : RoundRequest) (text : List ℕ) (past : List WorkFiling) (heading : List ℕ) (filings : List WorkFiling) (closing : List ℕ)
        → IsPlanned (⟦<Rule as Fn(u32, i32, u8) -> u32>⟧.post policy.now.rule) r text past heading filings closing
        → (filing : WorkFiling) → Contains filings filing → (standing : List WorkFiling) (refusal : Refusal) → breaks standing filing ≡ Some refusal → refusal.rule ≢ 213 }
{
    let _ = policy;
}
