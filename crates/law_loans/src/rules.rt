//! The rules of Direct Loans on what is on file (HEA 455(a); 34 CFR 685.203).
ghost use Rattle.std.specs.Prelude.{◌≡◌, ◌+◌, ◌*◌, ◌^◌, ◌<◌, ◌==◌, ◌∷◌};
ghost use Rattle.law_loans.specs.declared.filing.LoanWhat.TheVariants.{Before, Borrower, Cancel, Lend, Limits};
ghost use Rattle.law_loans.specs.Loans.{transaction_of};
ghost use Rattle.law_loans.specs.Rules.{
  AreSmall,
  HaveRoom,
  kind_lines,
  limit_lines,
  lines_of,
  outcome_by,
  rule_110 as rule_110_of,
  rule_for,
  tries_of_loan as tries_of_loan_of,
  tries_of_record as tries_of_record_of,
};
ghost use Rattle.aid_types.specs.RuleLines.{first_broken as first_broken_of, over as over_of, where_true as where_true_of};

use crate::bounds::{Bounds, bounds_of, last_bounds, own_bounds};
use crate::facts::{LoanFacts, LoanNets, LoanOutcome, Tries};
use crate::filing::{BeforeFacts, BorrowerFacts, LimitFacts, LoanAmount, LoanFiling, LoanWhat};
use crate::nets::{is_sub, of_all, of_program, of_year, with_loan};
use aid_types::{Refusal, RuleLine, School, first_broken, lacks, over, stands, where_true};

/// The most filings that a loan office keeps.
pub const MOST_LOAN_FILINGS: u32 = 200_000;

/// The first rule that a filing breaks, in the order of its kind's rules. It takes no memory.
pub fn broken(facts: &LoanFacts, filing: &LoanFiling) -> Option<Refusal>
    requires small { AreSmall facts.now.nets }
    ensures { result ≡ first_broken_of (lines_of facts.now filing.now) }
{
    let school = filing.key.school;
    match &filing.what {
        LoanWhat::Limits(limits) => broken_limits(facts, school, limits),
        LoanWhat::Borrower(filed) => broken_borrower(facts, filed),
        LoanWhat::Before(before) => broken_before(facts, school, before),
        LoanWhat::Lend(loan) => broken_loan(facts, loan),
        LoanWhat::Cancel(part) => broken_cancellation(facts, part),
    }
}

/// With what a filing is admitted that breaks no rule.
pub fn outcome(facts: &LoanFacts, filing: &LoanFiling) -> LoanOutcome
    requires small { AreSmall facts.now.nets }
    ensures { result ≡ outcome_by facts.now filing.now.what }
{
    match &filing.what {
        LoanWhat::Lend(loan) => {
            let nets = with_loan(&facts.nets, is_sub(loan.program), loan.cents);
            LoanOutcome::Lent {
                year: of_year(&nets),
                all: with_before(facts.before_total, of_all(&nets)),
            }
        }
        LoanWhat::Limits(_) => LoanOutcome::Noted,
        LoanWhat::Borrower(_) => LoanOutcome::Noted,
        LoanWhat::Before(_) => LoanOutcome::Noted,
        LoanWhat::Cancel(_) => LoanOutcome::Noted,
    }
}

/// The first broken rule of a year's limits.
fn broken_limits(f: &LoanFacts, school: School, limits: &LimitFacts) -> Option<Refusal>
    ensures { result ≡ first_broken_of (rule_110_of f.now.count ∷ kind_lines f.now school (Limits limits.now)) }
{
    first_broken(&[
        rule_110(f),
        rule_14(school),
        stands(111, f.limits_at, u64::from(limits.year.0)),
    ])
}

/// The first broken rule of a borrower's record, whichever school files it: last those on the nets as they stand.
fn broken_borrower(f: &LoanFacts, filed: &BorrowerFacts) -> Option<Refusal>
    requires small { AreSmall f.now.nets }
    ensures { result ≡ first_broken_of (rule_110_of f.now.count ∷ kind_lines f.now 0 (Borrower filed.now)) }
{
    let (filed_as, in_force) = (
        u64::from(filed.transaction),
        u64::from(transaction(&f.record)),
    );
    first_broken(&[
        rule_110(f),
        lacks(112, f.limits_at, u64::from(filed.year.0), 0),
        where_true(113, filed_as <= in_force, filed_as, in_force),
    ])
    .or_else(|| {
        let bounds = bounds_of(&f.limits, filed);
        broken_by_limits(&tries_of_record(&f.nets), f, &f.nets, &bounds, &bounds)
    })
}

/// The first broken rule of what a student borrowed before.
fn broken_before(f: &LoanFacts, school: School, before: &BeforeFacts) -> Option<Refusal>
    ensures { result ≡ first_broken_of (rule_110_of f.now.count ∷ kind_lines f.now school (Before before.now)) }
{
    let student = before.student.0;
    first_broken(&[
        rule_110(f),
        rule_14(school),
        over(125, u64::from(before.sub), u64::from(before.total)),
        stands(123, f.before_at, student),
        stands(124, f.loan_at, student),
    ])
}

/// The first broken rule of a loan, whichever school files it: last those on the nets with it.
fn broken_loan(f: &LoanFacts, loan: &LoanAmount) -> Option<Refusal>
    requires small { AreSmall f.now.nets }
    ensures { result ≡ first_broken_of (rule_110_of f.now.count ∷ kind_lines f.now 0 (Lend loan.now)) }
{
    let in_force = u32::from(transaction(&f.record));
    first_broken(&[
        rule_110(f),
        lacks(114, in_force, loan.student.0, u64::from(loan.year.0)),
        rule_115(loan.cents),
    ])
    .or_else(|| {
        let is_sub = is_sub(loan.program);
        let nets = with_loan(&f.nets, is_sub, loan.cents);
        let (own, last) = (own_bounds(f), last_bounds(f));
        broken_by_limits(&tries_of_loan(is_sub), f, &nets, &own, &last)
    })
}

/// The first broken rule of a cancellation, whichever school files it.
fn broken_cancellation(f: &LoanFacts, part: &LoanAmount) -> Option<Refusal>
    ensures { result ≡ first_broken_of (rule_110_of f.now.count ∷ kind_lines f.now 0 (Cancel part.now)) }
{
    let net = of_program(&f.nets, is_sub(part.program));
    first_broken(&[
        rule_110(f),
        rule_115(part.cents),
        over(122, part.cents, net),
    ])
}

/// The first limit that nets are above: the need, the annual limits and the cost by the record at hand, and the aggregate limits
/// by the last one, with what was borrowed before.
fn broken_by_limits(
    tries: &Tries,
    f: &LoanFacts,
    nets: &LoanNets,
    own: &Bounds,
    last: &Bounds,
) -> Option<Refusal>
    requires room { HaveRoom nets.now }
    ensures { result ≡ first_broken_of (limit_lines tries.now f.now nets.now own.now last.now) }
{
    let year = of_year(nets);
    let sub_all = with_before(f.before_sub, nets.sub_all);
    let all = with_before(f.before_total, of_all(nets));
    first_broken(&[
        limit_line(tries, 116, nets.sub, own.need).only_if(tries.sub),
        limit_line(tries, 117, nets.sub, own.sub).only_if(tries.sub),
        limit_line(tries, 118, year, own.total),
        limit_line(tries, 119, sub_all, last.sub_all).only_if(tries.all_sub),
        limit_line(tries, 120, all, last.all).only_if(tries.all),
        limit_line(tries, 121, year, own.cost),
    ])
}

/// A net in cents and what was borrowed before in dollars, together in cents.
fn with_before(dollars: u32, net: u64) -> u64
    requires small { net < 2 ^ 52 }
    ensures { result ≡ 100 * dollars + net }
{
    100 * u64::from(dollars) + net
}

/// A net in cents is above a bound in dollars: under the limit's own rule, or under 126 for a record.
fn limit_line(tries: &Tries, rule: u16, net: u64, dollars: u32) -> RuleLine
    ensures { result ≡ over_of (rule_for tries.now rule) net (100 * dollars) }
{
    let rule = if tries.of_record { 126 } else { rule };
    over(rule, net, 100 * u64::from(dollars))
}

/// What a record is tried against: the aggregate limits where there are such nets.
fn tries_of_record(nets: &LoanNets) -> Tries
    requires room { HaveRoom nets.now }
    ensures { result ≡ tries_of_record_of nets.now }
{
    Tries {
        of_record: true,
        sub: true,
        all_sub: nets.sub_all > 0,
        all: of_all(nets) > 0,
    }
}

/// What a loan is tried against.
fn tries_of_loan(is_sub: bool) -> Tries
    ensures { result ≡ tries_of_loan_of is_sub }
{
    Tries {
        of_record: false,
        sub: is_sub,
        all_sub: is_sub,
        all: true,
    }
}

/// The transaction of a record, 0 where there is none.
fn transaction(filed: &Option<BorrowerFacts>) -> u8
    ensures { result ≡ transaction_of filed.now }
{
    match filed {
        Some(filed) => filed.transaction,
        None => 0,
    }
}

/// The office is full.
fn rule_110(f: &LoanFacts) -> RuleLine
    ensures { result ≡ rule_110_of f.now.count }
{
    let most = u64::from(MOST_LOAN_FILINGS);
    where_true(110, f.count >= MOST_LOAN_FILINGS, most, most)
}

/// The office's own desk alone files this.
fn rule_14(school: School) -> RuleLine
    ensures { result ≡ over_of 14 school 0 }
{
    over(14, u64::from(school.0), 0)
}

/// There is no amount.
fn rule_115(cents: u64) -> RuleLine
    ensures { result ≡ where_true_of 115 (cents == 0) 0 1 }
{
    where_true(115, cents == 0, 0, 1)
}
