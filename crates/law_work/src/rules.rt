//! The rules of Federal Work-Study on what is on file (HEA 443; 34 CFR 675).
ghost use Rattle.std.specs.Prelude.{◌≡◌, ◌+◌, ◌-◌, ◌*◌, ◌≤◌, ◌==◌, ◌∷◌};
ghost use Rattle.aid_types.specs.RuleLines.{first_broken as first_broken_of, lacks as lacks_of, where_true as where_true_of};
ghost use Rattle.law_work.specs.declared.filing.WorkWhat.TheVariants.{Award, Earn, Fund, Release};
ghost use Rattle.law_work.specs.Funds.{earning as earning_of};
ghost use Rattle.law_work.specs.Rules.{AreSmall, kind_lines, lines_of, outcome_by, rule_210 as rule_210_of};

use crate::facts::{WorkFacts, WorkOutcome};
use crate::filing::{DollarFacts, EarnFacts, FundFacts, WorkFiling, WorkWhat};
use aid_types::{
    Refusal, RuleLine, School, Student, Year, first_broken, lacks, nearest_whole, over, stands,
    where_true,
};

/// The most filings that a work-study office keeps.
pub const MOST_WORK_FILINGS: u32 = 200_000;

/// The least award, in dollars (own).
const LEAST_AWARD: u32 = 100;

/// The greatest award, in dollars (own).
const MOST_AWARD: u32 = 4_000;

/// The first rule that a filing breaks, in the order of its kind's rules. It takes no memory.
pub fn broken(facts: &WorkFacts, filing: &WorkFiling) -> Option<Refusal>
    requires small { AreSmall facts.now }
    ensures { result ≡ first_broken_of (lines_of facts.now filing.now) }
{
    match &filing.what {
        WorkWhat::Fund(fund) => broken_fund(facts, fund),
        WorkWhat::Award(award) => broken_award(facts, filing.key.school, award),
        WorkWhat::Earn(work) => broken_earning(facts, work),
        WorkWhat::Release(part) => broken_release(facts, part),
    }
}

/// With what a filing is admitted that breaks no rule.
pub fn outcome(facts: &WorkFacts, filing: &WorkFiling) -> WorkOutcome
    requires small { AreSmall facts.now }
    ensures { result ≡ outcome_by facts.now filing.now.what }
{
    match &filing.what {
        WorkWhat::Earn(work) => {
            let earned = facts.earned + earning(work);
            WorkOutcome::Earned {
                earned,
                left: unearned(facts.award, earned),
            }
        }
        WorkWhat::Fund(_) => WorkOutcome::Noted,
        WorkWhat::Award(_) => WorkOutcome::Noted,
        WorkWhat::Release(_) => WorkOutcome::Noted,
    }
}

/// What is earned by so many minutes at the wage of an hour, in cents, to the nearest cent, half a cent up (own).
pub fn earning(work: &EarnFacts) -> u64
    ensures value { result ≡ earning_of work.now }
    ensures bound { result ≤ 100000000 }
{
    nearest_whole(u64::from(work.minutes) * u64::from(work.wage), 60)
}

/// The first broken rule of a fund, whichever school files it.
fn broken_fund(f: &WorkFacts, fund: &FundFacts) -> Option<Refusal>
    ensures { result ≡ first_broken_of (rule_210_of f.now.count ∷ kind_lines f.now 0 (Fund fund.now)) }
{
    first_broken(&[rule_210(f), stands(211, f.fund_at, u64::from(fund.year.0))])
}

/// The first broken rule of an award.
fn broken_award(f: &WorkFacts, school: School, award: &DollarFacts) -> Option<Refusal>
    requires small { AreSmall f.now }
    ensures { result ≡ first_broken_of (rule_210_of f.now.count ∷ kind_lines f.now school (Award award.now)) }
{
    let dollars = award.dollars;
    let is_no_award = dollars < LEAST_AWARD || dollars > MOST_AWARD;
    let awards = u64::from(f.awards + dollars);
    first_broken(&[
        rule_210(f),
        lacks(212, f.fund_at, u64::from(school.0), u64::from(award.year.0)),
        where_true(213, is_no_award, u64::from(dollars), u64::from(MOST_AWARD)),
        stands(214, f.award_at, award.student.0),
        over(215, awards, u64::from(f.fund)),
    ])
}

/// The first broken rule of an earning, whichever school files it.
fn broken_earning(f: &WorkFacts, work: &EarnFacts) -> Option<Refusal>
    requires small { AreSmall f.now }
    ensures { result ≡ first_broken_of (rule_210_of f.now.count ∷ kind_lines f.now 0 (Earn work.now)) }
{
    let cents = earning(work);
    first_broken(&[
        rule_210(f),
        rule_216(f, work.student, work.year),
        rule_217(cents),
        over(218, f.earned + cents, 100 * u64::from(f.award)),
    ])
}

/// The first broken rule of a release, whichever school files it.
fn broken_release(f: &WorkFacts, part: &DollarFacts) -> Option<Refusal>
    ensures { result ≡ first_broken_of (rule_210_of f.now.count ∷ kind_lines f.now 0 (Release part.now)) }
{
    let dollars = u64::from(part.dollars);
    first_broken(&[
        rule_210(f),
        rule_216(f, part.student, part.year),
        rule_217(dollars),
        over(219, 100 * dollars, unearned(f.award, f.earned)),
    ])
}

/// The unearned part of an award of so many dollars, in cents.
fn unearned(award: u32, earned: u64) -> u64
    ensures { result ≡ 100 * award - earned }
{
    (100 * u64::from(award)).saturating_sub(earned)
}

/// The office is full.
fn rule_210(f: &WorkFacts) -> RuleLine
    ensures { result ≡ rule_210_of f.now.count }
{
    let most = u64::from(MOST_WORK_FILINGS);
    where_true(210, f.count >= MOST_WORK_FILINGS, most, most)
}

/// The student has no award there.
fn rule_216(f: &WorkFacts, student: Student, year: Year) -> RuleLine
    ensures { result ≡ lacks_of 216 f.now.award_at student year }
{
    lacks(216, f.award_at, student.0, u64::from(year.0))
}

/// There is no amount.
fn rule_217(amount: u64) -> RuleLine
    ensures { result ≡ where_true_of 217 (amount == 0) 0 1 }
{
    where_true(217, amount == 0, 0, 1)
}
