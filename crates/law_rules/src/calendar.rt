//! The rules on a term that a school files.
ghost use Rattle.std.specs.Prelude.{◌≡◌};
ghost use Rattle.aid_filings.specs.declared.filing.What.TheVariants.{Calendar};
ghost use Rattle.law_rules.specs.Lines.{lines_of};
ghost use Rattle.aid_types.specs.RuleLines.{first_broken as first_broken_of};
ghost use Rattle.law_rules.specs.Rules.{breaks_in_order, rule_21, rule_23};

use crate::facts::Facts;
use crate::rules::{rule_12, rule_90};
use aid_filings::CalendarFacts;
use aid_types::{Day, Refusal, School, Term, first_broken, stands, too_early, where_true};

/// The first broken rule of a term that a school files.
#[tactic(auto, using(crate::proofs::Groups::calendar_groups))]
pub(crate) fn broken_calendar(f: &Facts, school: School, filed: &CalendarFacts) -> Option<Refusal>
    ensures { result ≡ first_broken_of (lines_of f.now school (Calendar filed.now)) }
{
    let term = filed.to_term();
    let number = u64::from(term.number);
    let (main_terms, terms) = (u64::from(f.main_terms), u64::from(f.terms));
    first_broken(&[
        rule_90(f),
        rule_12(f, school),
        stands(20, f.term_at, number),
    ])
    .or_else(|| broken_by_order(&term))
    .or_else(|| broken_by_break_outside(&term))
    .or_else(|| {
        first_broken(&[
            stands(22, f.overlap_at, number),
            where_true(24, main_terms >= terms, main_terms, terms).only_if(!term.extra),
        ])
    })
}

/// The first day of a term and its breaks that is out of order.
fn broken_by_order(term: &Term) -> Option<Refusal>
    ensures { result ≡ first_broken_of (rule_21 term.now) }
{
    let of_term = first_broken(&[too_early(21, term.last, term.first)]);
    let [(first, last), rest @ ..] = term.breaks.as_slice() else {
        return of_term;
    };
    of_term
        .or_else(|| first_broken(&[too_early(21, *last, *first)]))
        .or_else(|| broken_by_break_order(*last, rest))
}

/// The first day of some breaks after a day that is out of order.
fn broken_by_break_order(after: Day, breaks: &[(Day, Day)]) -> Option<Refusal>
    ensures { result ≡ first_broken_of (breaks_in_order after breaks.now) }
{
    let mut before = after;
    for &(first, last) in breaks {
        let broken = first_broken(&[
            where_true(
                21,
                !before.is_before(first),
                u64::from(first.count()),
                u64::from(before.count()),
            ),
            too_early(21, last, first),
        ]);
        if broken.is_some() {
            return broken;
        }
        before = last;
    }
    None
}

/// The first break that isn't inside its term: the term's first and last day lie in none.
fn broken_by_break_outside(term: &Term) -> Option<Refusal>
    ensures { result ≡ first_broken_of (rule_23 term.now) }
{
    let breaks = term.breaks.as_slice();
    let mut number = 1;
    for &(first, last) in breaks {
        let is_outside = !term.first.is_before(first) || !last.is_before(term.last);
        let outside = where_true(23, is_outside, number, breaks.len() as u64);
        if outside.is_broken {
            return Some(outside.refusal());
        }
        number += 1;
    }
    None
}
