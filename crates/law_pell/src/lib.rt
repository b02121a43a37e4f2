//! The award of an application with an index (HEA 401(b)).
#![tactic(auto)]

ghost use Rattle.std.specs.Prelude.{◌≡◌, ◌≤ℤ◌, ℤ};
ghost use Rattle.aid_types.specs.Ranges.{IsAmount, IsIndex, IsSignedAmount};
ghost use Rattle.aid_types.specs.declared.application.Application.{Application as AnyApplication};
ghost use Rattle.law_sai.specs.Household.{IsRisingSchedule};
ghost use Rattle.law_sai.specs.Formulas.{formula as formula_at};
ghost use Rattle.law_sai.specs.Income.{IsRicher};
ghost use Rattle.law_sai.specs.Index.{index_lines};
ghost use Rattle.law_pell.specs.Award.{
  awarded as awarded_of,
  calculated as calculated_of,
  ceiling_at,
  ceiling_bound as ceiling_bound_of,
  counted_income as counted_income_of,
  is_at_ceiling as is_at_ceiling_of,
  IsDecidedByCase,
  IsScheduledAward,
  IsTold,
  decision,
  decision_under,
  is_barred as is_barred_of,
  is_maximum as is_maximum_of,
  is_minimum as is_minimum_of,
  guideline as guideline_at,
  income as income_of,
  is_single_parent as is_single_parent_of,
  is_within as is_within_of,
  maximum_percent as maximum_percent_of,
  minimum_percent as minimum_percent_of,
  must_file as must_file_of,
};

use aid_books::{Book, Percents};
use aid_types::{Application, Formula, Region, Side, Way, to5};
use law_sai::formula_of;

/// What is awarded: the way to it, the Scheduled Award in dollars, and the final index.
#[derive(Clone, Copy, PartialEq, Eq, Debug)]
pub struct Decision {
    pub way: Way,
    pub scheduled: u32,
    pub sai: i32,
}

/// An index at or above the year's ceiling, and the least index there: the ceiling is why there is no award. Both are 0 where it
/// isn't.
#[derive(Clone, Copy, PartialEq, Eq)]
pub struct Ceiling {
    pub index: u32,
    pub bound: u32,
}

impl Ceiling {
    /// No ceiling decides.
    pub const NONE: Ceiling = Ceiling { index: 0, bound: 0 };
}

/// The award of an application with this index (HEA 401(b)).
pub fn decide(book: &Book, a: &Application, index: i32) -> Decision
    requires { IsIndex index }
    ensures value { result ≡ decision book.now a.now index }
    ensures by_case { IsDecidedByCase (formula_at book.now a.now) book.now a.now index result }
    ensures award { IsScheduledAward book.now.pell result.scheduled }

    // A greater index never gives a greater Calculated award, nor does more income, all else equal.
    ensures falls { (greater : ℤ) → index ≤ℤ greater → calculated_of book.now greater ≤ℤ calculated_of book.now index }
    ensures falls_with_income { (richer : AnyApplication) → IsRisingSchedule book.now → IsRicher a.now richer
        → calculated_of book.now (index_lines book.now richer).index ≤ℤ calculated_of book.now (index_lines book.now a.now).index }
{
    decide_under(formula_of(book, a), book, a, index)
}

/// The ceiling of the year where it decides on an application with this index (HEA 401(b)(1), since Public Law
/// 119-21, section 83001).
pub fn ceiling_for(book: &Book, a: &Application, index: i32) -> Ceiling
    requires { IsIndex index }
    ensures value { result ≡ ceiling_at book.now a.now index }
    ensures told { IsTold book.now a.now index result }
{
    if !is_barred(a) && is_at_ceiling(book, index) {
        Ceiling {
            index: index as u32,
            bound: ceiling_bound(book),
        }
    } else {
        Ceiling::NONE
    }
}

// The first of the six cases that holds under a formula.
fn decide_under(formula: Formula, book: &Book, a: &Application, index: i32) -> Decision
    requires { IsIndex index }
    ensures { result ≡ decision_under formula book.now a.now index }
{
    if is_barred(a) {
        return awarded(Way::Nothing, 0, index);
    }
    if is_at_ceiling(book, index) {
        return awarded(Way::Nothing, 0, index);
    }
    if !must_file(formula, a) {
        return awarded(Way::Maximum, book.pell.maximum, -1500);
    }
    if is_maximum(book, formula, a) {
        return awarded(Way::Maximum, book.pell.maximum, index.min(0));
    }
    let calculated = calculated(book, index);
    if calculated >= book.pell.minimum {
        return awarded(Way::Calculated, calculated, index);
    }
    if is_minimum(book, formula, a) {
        return awarded(Way::Minimum, book.pell.minimum, index);
    }
    awarded(Way::Nothing, 0, index)
}

/// Whether a student has no award: a graduate student, or one who has a bachelor's degree (HEA 401(d)(1)).
pub fn is_barred(a: &Application) -> bool
    ensures { result ≡ is_barred_of a.now }
{
    a.graduate || a.bachelor
}

// Whether an index is at or above the year's ceiling.
#[tactic(auto, unfolding(crate::specs::Award::is_at_ceiling))]
fn is_at_ceiling(book: &Book, index: i32) -> bool
    requires { IsIndex index }
    ensures { result ≡ is_at_ceiling_of book.now index }
{
    book.ceiling > 0 && i64::from(book.ceiling) * book.pell.maximum <= 100 * i64::from(index)
}

/// The least index at or above the year's ceiling, of a year that has one.
pub fn ceiling_bound(book: &Book) -> u32
    ensures { result ≡ ceiling_bound_of book.now }
{
    (u32::from(book.ceiling) * book.pell.maximum as u32 + 99) / 100
}

// Whether the household's income makes the award a Maximum.
#[tactic(auto, unfolding(crate::specs::Award::is_maximum))]
fn is_maximum(book: &Book, formula: Formula, a: &Application) -> bool
    ensures { result ≡ is_maximum_of book.now formula a.now }
{
    let income = income(book, formula, a);
    income > 0
        && is_within(
            income,
            maximum_percent(&book.percent, formula, a),
            guideline(book, a),
        )
}

// Whether it makes the award at least a Minimum.
#[tactic(auto, unfolding(crate::specs::Award::is_minimum))]
fn is_minimum(book: &Book, formula: Formula, a: &Application) -> bool
    ensures { result ≡ is_minimum_of book.now formula a.now }
{
    is_within(
        income(book, formula, a),
        minimum_percent(&book.percent, formula, a),
        guideline(book, a),
    )
}

// A decision.
fn awarded(way: Way, scheduled: i64, sai: i32) -> Decision
    requires { IsAmount scheduled }
    ensures { result ≡ awarded_of way scheduled sai }
{
    Decision {
        way,
        scheduled: scheduled as u32,
        sai,
    }
}

/// The income that decides, in dollars: the parents' under formula A, and else the student's (HEA 401(b)(1)).
pub fn income(book: &Book, formula: Formula, a: &Application) -> i64
    ensures { result ≡ income_of book.now formula a.now }
{
    match formula {
        Formula::A => counted_income(book.ceiling, &a.parents),
        Formula::B => counted_income(book.ceiling, &a.own),
        Formula::C => counted_income(book.ceiling, &a.own),
    }
}

// What counts of one household's income.
fn counted_income(ceiling: u16, side: &Side) -> i64
    ensures { result ≡ counted_income_of ceiling side.now }
{
    if ceiling == 0 {
        i64::from(side.agi)
    } else {
        i64::from(side.agi + side.foreign)
    }
}

/// Whether the household whose income decides was required to file a return.
pub fn must_file(formula: Formula, a: &Application) -> bool
    ensures { result ≡ must_file_of formula a.now }
{
    match formula {
        Formula::A => a.parents_file,
        Formula::B => a.student_file,
        Formula::C => a.student_file,
    }
}

// Whether there is a single parent.
fn is_single_parent(formula: Formula, a: &Application) -> bool
    ensures { result ≡ is_single_parent_of formula a.now }
{
    match formula {
        Formula::A => !a.parents_married,
        Formula::B => false,
        Formula::C => !a.married,
    }
}

/// The percent of the guideline up to which an award is a Maximum.
pub fn maximum_percent(percents: &Percents, formula: Formula, a: &Application) -> i64
    ensures { result ≡ maximum_percent_of percents.now formula a.now }
{
    if is_single_parent(formula, a) {
        percents.maximum_single
    } else {
        percents.maximum_other
    }
}

/// The percent of the guideline up to which an award is at least a Minimum.
pub fn minimum_percent(percents: &Percents, formula: Formula, a: &Application) -> i64
    ensures { result ≡ minimum_percent_of percents.now formula a.now }
{
    match formula {
        Formula::A => {
            if a.parents_married {
                percents.minimum_dependent_other
            } else {
                percents.minimum_dependent_single
            }
        }
        Formula::B => percents.minimum_no_dependents,
        Formula::C => {
            if a.married {
                percents.minimum_parent
            } else {
                percents.minimum_single_parent
            }
        }
    }
}

// Whether an income is at most so many percent of the guideline.
fn is_within(income: i64, percent: i64, guideline: i64) -> bool
    ensures { result ≡ is_within_of income percent guideline }
{
    100 * i128::from(income) <= i128::from(percent) * i128::from(guideline)
}

/// The award that an index leaves of the greatest, in dollars, to the nearest five.
pub fn calculated(book: &Book, index: i32) -> i64
    requires { IsIndex index }
    ensures value { result ≡ calculated_of book.now index }
    ensures in_range { IsSignedAmount result }
{
    to5(book.pell.maximum - i64::from(index.max(0)))
}

/// The poverty guideline of a household, in dollars, by region and family size.
pub fn guideline(book: &Book, a: &Application) -> i64
    ensures { result ≡ guideline_at book.now a.now }
{
    let guideline = match a.region {
        Region::Contiguous => &book.poverty.contiguous,
        Region::Alaska => &book.poverty.alaska,
        Region::Hawaii => &book.poverty.hawaii,
    };
    guideline.at(a.family)
}
