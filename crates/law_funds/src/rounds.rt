//! A round of awards of one fund.
ghost use Rattle.std.specs.Prelude.{◌≡◌, ◌+◌, ◌≤◌, sum, length, IfOk};
ghost use Rattle.law_funds.specs.Order.{IsInOrder};
ghost use Rattle.law_funds.specs.Rounds.{IsAward, IsRound, AreWithinNeeds};

use crate::candidate::Candidate;
use crate::policy::{Policy, Rule};
use std::alloc::{AllocError, Global};

/// What a round awards each candidate, in the order of the candidates, and what is left of the fund, in whole dollars.
#[derive(Drop)]
pub struct Awarded {
    pub awards: Vec<u32>,
    pub left: u32,
}

/// Awards a fund to candidates with need by a policy, those with the lowest index first (34 CFR 676.10). An award of less than 100
/// dollars isn't made (HEA 413B(a)(2)(B)).
pub fn round(
    alloc: Global,
    fund: u32,
    list: &[Candidate],
    policy: &Policy,
) -> Result<Awarded, AllocError>
    requires in_order { IsInOrder list.now }
    ensures round { IfOk result (λ r. IsRound (Rule.post policy.now.rule) fund list.now r.awards.items r.left) }
    ensures count { IfOk result (λ r. length r.awards.items ≡ length list.now) }
    ensures whole { IfOk result (λ r. sum r.awards.items + r.left ≡ fund) }
    ensures within { IfOk result (λ r. AreWithinNeeds list.now r.awards.items) }
{
    let mut awards = Vec::with_capacity(alloc, list.len())?;
    let mut left = fund;
    for candidate in list {
        let award = award(left, candidate, policy);
        awards.push(award)?;
        left -= award;
    }
    Ok(Awarded { awards, left })
}

// What one candidate is awarded of what is left of the fund.
fn award(left: u32, candidate: &Candidate, policy: &Policy) -> u32
    ensures award { IsAward (Rule.post policy.now.rule) left candidate.now result }
    ensures at_most { result ≤ left }
{
    let answer = (policy.rule)(candidate.need, candidate.sai, candidate.intensity);
    if left < 100 { 0 } else { answer.min(left) }
}
