//! The rules on a withdrawal.
ghost use Rattle.std.specs.Prelude.{◌≡◌, ◌≤◌, ◌++◌, [], ◌∷◌};
ghost use Rattle.aid_types.specs.Ranges.{EachIsCents};
ghost use Rattle.aid_filings.specs.declared.filing.What.TheVariants.{Withdraw};
ghost use Rattle.law_rules.specs.InRange.{AreFactsInRange};
ghost use Rattle.law_rules.specs.Lines.{lines_of, rule_63};
ghost use Rattle.aid_types.specs.RuleLines.{first_broken as first_broken_of, too_early as too_early_of};
ghost use Rattle.law_rules.specs.Rules.{rule_62};

use crate::facts::Facts;
use crate::limits::{PellRules, broken_by_pell, past_cost, past_fseog};
use crate::rules::{broken_on_file, not_enrolled};
use aid_filings::WithdrawFacts;
use aid_types::{ByProgram, Program, Refusal, School, first_broken, over, stands, too_early};

/// The rule on a withdrawal after which what could have been disbursed of Pell is past a limit.
const WITHDRAWAL_RULES: PellRules = PellRules {
    term: 63,
    year: 63,
    lifetime: 63,
};

/// The first broken rule of a withdrawal. The limits are computed for a student who is enrolled at a school on file.
#[tactic(auto, using(crate::proofs::Groups::withdrawal_groups))]
pub(crate) fn broken_withdrawal(
    f: &Facts,
    school: School,
    withdrawal: &WithdrawFacts,
) -> Option<Refusal>
    requires { AreFactsInRange f.now }
    ensures { result ≡ first_broken_of (lines_of f.now school (Withdraw withdrawal.now)) }
{
    let (student, term) = (withdrawal.student, withdrawal.term);
    broken_on_file(f, school, student, withdrawal.year, term)
        .or_else(|| first_broken(&[
            not_enrolled(60, f, student, term),
            stands(61, f.withdrawn_at, u64::from(term)),
        ]))
        .or_else(|| broken_by_days(f, withdrawal))
        .or_else(|| broken_by_could(f, &withdrawal.could))
}

/// The first broken rule of a withdrawal on its days.
fn broken_by_days(f: &Facts, withdrawal: &WithdrawFacts) -> Option<Refusal>
    ensures { result ≡ first_broken_of (rule_62 withdrawal.now.last f.now.term ++ (too_early_of 21 withdrawal.now.determined withdrawal.now.last ∷ [])) }
{
    let (last, determined) = (withdrawal.last, withdrawal.determined);
    let outside = match &f.term {
        Some(term) => first_broken(&[
            too_early(62, last, term.first),
            over(62, u64::from(last.count()), u64::from(term.last.count())),
        ]),
        None => None,
    };
    outside.or_else(|| first_broken(&[too_early(21, determined, last)]))
}

/// The first limit that what could have been disbursed passes, all of it paid at once.
#[tactic(auto, using(aid_types::proofs::ProgramLemmas::cents_at))]
fn broken_by_could(f: &Facts, could: &ByProgram) -> Option<Refusal>
    requires facts { AreFactsInRange f.now }
    requires on_file { f.now.school_at ≡ 0 → ⊥ }
    requires enrolled { 1 ≤ f.now.credits }
    requires amounts { EachIsCents could.now }
    ensures { result ≡ first_broken_of (rule_63 f.now could.now) }
{
    let (pell, fseog) = (could.at(Program::Pell), could.at(Program::Fseog));
    let total = could.sum();
    let of_pell = if pell > 0 {
        broken_by_pell(f, WITHDRAWAL_RULES, pell)
    } else {
        None
    };
    of_pell.or_else(|| {
        first_broken(&[
            past_fseog(63, f, fseog).only_if(fseog > 0),
            past_cost(63, f, total).only_if(total > 0),
        ])
    })
}
