//! The rules on a payment.
ghost use Rattle.std.specs.Prelude.{◌≡◌, ◌≤◌};
ghost use Rattle.aid_types.specs.Programs.{rank};
ghost use Rattle.aid_filings.specs.declared.filing.What.TheVariants.{Pay};
ghost use Rattle.law_rules.specs.InRange.{AreFactsInRange};
ghost use Rattle.law_rules.specs.Lines.{amount_lines, lines_of};
ghost use Rattle.aid_types.specs.RuleLines.{first_broken as first_broken_of};
ghost use Rattle.law_rules.specs.Rules.{rule_53 as rule_53_of};

use crate::facts::Facts;
use crate::limits::{PellRules, broken_by_pell, past_cost, past_fseog};
use crate::rules::{broken_on_file, not_enrolled};
use aid_filings::Amount;
use aid_types::{Program, Refusal, RuleLine, School, first_broken, over, stands, where_true};

/// The rules on a payment of Pell past a limit.
const PAYMENT_RULES: PellRules = PellRules {
    term: 54,
    year: 55,
    lifetime: 56,
};

/// The first broken rule of a payment. The limits are computed for a student who is enrolled at a school on file.
#[tactic(auto, using(crate::proofs::Groups::payment_groups))]
pub(crate) fn broken_payment(f: &Facts, school: School, payment: &Amount) -> Option<Refusal>
    requires { AreFactsInRange f.now }
    ensures { result ≡ first_broken_of (lines_of f.now school (Pay payment.now)) }
{
    let (student, term, cents) = (payment.student, payment.term, payment.cents);
    let is_pell = payment.program == Program::Pell;
    broken_on_file(f, school, student, payment.year, term)
        .or_else(|| first_broken(&[not_enrolled(51, f, student, term), rule_53(is_pell, cents)]))
        .or_else(|| broken_by_amount(f, school, payment.program, cents))
}

/// There is no amount, or it is one of Pell and not in whole dollars.
fn rule_53(is_pell: bool, cents: u64) -> RuleLine
    ensures { result ≡ rule_53_of is_pell cents }
{
    where_true(53, cents == 0 || is_pell && cents % 100 != 0, cents, 100)
}

/// The first broken rule of a payment after those on where the student stands and on the amount alone: after a withdrawal,
/// no more than may be disbursed of the program, and of all programs (34 CFR 668.22(a)(6)), and then the limits.
#[tactic(auto, using(crate::proofs::Groups::pell_groups))]
fn broken_by_amount(f: &Facts, school: School, program: Program, cents: u64) -> Option<Refusal>
    requires facts { AreFactsInRange f.now }
    requires on_file { f.now.school_at ≡ 0 → ⊥ }
    requires enrolled { 1 ≤ f.now.credits }
    requires amount { cents ≤ 99999999 }
    ensures { result ≡ first_broken_of (amount_lines f.now school (rank program) cents) }
{
    let has_withdrawn = f.withdrawn_at > 0;
    let of_program = over(52, f.after + cents, f.could.at(program)).only_if(has_withdrawn);
    let of_all = over(52, f.after_all + cents, f.post).only_if(has_withdrawn);
    let cost = past_cost(57, f, cents);
    match program {
        Program::Pell => first_broken(&[
            stands(43, f.ceiling_index, u64::from(f.ceiling_bound)),
            where_true(40, f.scheduled == 0, u64::from(f.transaction), 0),
            stands(58, f.other_school, u64::from(school.0)),
            of_program,
            of_all,
        ])
        .or_else(|| broken_by_pell(f, PAYMENT_RULES, cents))
        .or_else(|| first_broken(&[cost])),
        Program::Fseog => first_broken(&[of_program, of_all, past_fseog(55, f, cents), cost]),
        _ => first_broken(&[of_program, of_all, cost]),
    }
}
