//! The lines of a household, and those of the parents (HEA 475).
//!
//! The student's lines, the formula of an application, whether it fits the book, and the index (HEA 475 to 478, 480).
#![tactic(auto)]

mod household;
mod lines;
mod student;

ghost use Rattle.aid_types.specs.Ranges.{IsIndex};
ghost use Rattle.aid_types.specs.declared.application.Application.{Application as AnyApplication};
ghost use Rattle.aid_types.specs.declared.award.Formula.TheVariants.{A, B, C};
ghost use Rattle.law_sai.specs.Fits.{FitsBook, is_size as is_size_of, size_for as size_for_of, unfit};
ghost use Rattle.law_sai.specs.Formulas.{formula, is_independent as is_independent_of};
ghost use Rattle.law_sai.specs.Income.{IsRicher};
ghost use Rattle.law_sai.specs.Index.{AreIndexLines, bounded as bounded_of, index_lines, indexed as indexed_of, lines_of};
ghost use Rattle.law_sai.specs.Indices.{index_of};
ghost use Rattle.law_sai.specs.declared.IndexLines.{IndexLines as Lines};
ghost use Rattle.law_sai.specs.Household.{IsRisingSchedule};
ghost use Rattle.std.specs.Prelude.{◌≡◌, ◌≤ℤ◌, ◌↔◌, IsNone};

use aid_books::Book;
use aid_types::{Application, Formula, Refusal};
pub use household::{
    asset_contribution, asset_protection, business_worth, employment_allowance, payroll_allowance,
    schedule_value, tax_allowance, total_income,
};
pub use lines::{ParentLines, assessed, income_and_assets, parents};
use student::{dependent, family, income_contribution, no_lines, single};

/// The lines of an application under its formula, in dollars. `parent` is all 0 outside formula A, and `own` has the
/// student's lines, 0 for those that the formula doesn't have.
#[derive(Clone, Copy, PartialEq, Eq, Debug)]
pub struct IndexLines {
    pub formula: Formula,
    pub parent: ParentLines,
    pub own: ParentLines,
    pub from_income: i64,
    pub raw: i64,
    pub index: i32,
}

/// Whether a student is independent (HEA 480(d)).
pub fn is_independent(book: &Book, a: &Application) -> bool
    ensures { result ≡ is_independent_of book.now a.now }
{
    a.birth_year + 24 <= book.year.0
        || a.married
        || a.graduate
        || a.veteran
        || a.dependents
        || a.orphan
        || a.ward
        || a.foster
        || a.emancipated
        || a.homeless
}

/// The formula of an application.
pub fn formula_of(book: &Book, a: &Application) -> Formula
    ensures { result ≡ formula book.now a.now }
{
    if !is_independent(book, a) {
        Formula::A
    } else if a.dependents {
        Formula::C
    } else {
        Formula::B
    }
}

/// The refusal of an application that is out of range for the book.
pub fn fits(book: &Book, a: &Application) -> Option<Refusal>
    ensures value { result ≡ unfit book.now a.now }
    ensures none { IsNone result ↔ FitsBook book.now a.now }
{
    if a.birth_year > book.year.0 {
        return Some(refusal(a.birth_year as u64, book.year.0 as u64));
    }
    let formula = formula_of(book, a);
    let size = size_for(formula, a.married);
    if is_size(formula, size, a.family) {
        None
    } else {
        Some(refusal(a.family as u64, size as u64))
    }
}

// The refusal of rule 92.
fn refusal(kept: u64, bound: u64) -> Refusal
    ensures { result ≡ record { rule = 92; kept = kept; bound = bound } }
{
    Refusal {
        rule: 92,
        kept,
        bound,
    }
}

// The size of family that a formula asks for.
fn size_for(formula: Formula, married: bool) -> u8
    ensures { result ≡ size_for_of formula married }
{
    match formula {
        Formula::A => 2,
        Formula::B => { if married { 2 } else { 1 } }
        Formula::C => { if married { 3 } else { 2 } }
    }
}

// Whether a family has that size.
fn is_size(formula: Formula, size: u8, family: u8) -> bool
    ensures { result ≡ is_size_of formula size family }
{
    match formula {
        Formula::B => family == size,
        Formula::A => size <= family,
        Formula::C => size <= family,
    }
}

/// The lines of an application under its formula, and its index (HEA 475 to 477).
pub fn index(book: &Book, a: &Application) -> IndexLines
    ensures lines { AreIndexLines book.now a.now result }
    ensures only { (lines : Lines) → AreIndexLines book.now a.now lines → lines ≡ result }
    ensures value { result ≡ index_lines book.now a.now }
    ensures index { result.index ≡ index_of book.now a.now }
    ensures in_range { IsIndex result.index }

    // More income, all else equal, gives no lesser index.
    ensures rises { (richer : AnyApplication) → IsRisingSchedule book.now → IsRicher a.now richer
        → result.index ≤ℤ (index_lines book.now richer).index }
{
    index_under(formula_of(book, a), book, a)
}

// The lines of an application under a formula, and its index.
fn index_under(formula: Formula, book: &Book, a: &Application) -> IndexLines
    ensures value { result ≡ lines_of formula book.now a.now }
    ensures in_range { IsIndex result.index }
{
    match formula {
        Formula::A => dependent_index(book, a),
        Formula::B => single_index(book, a),
        Formula::C => family_index(book, a),
    }
}

// The index of a dependent student.
fn dependent_index(book: &Book, a: &Application) -> IndexLines
    ensures value { result ≡ lines_of A book.now a.now }
    ensures in_range { IsIndex result.index }
{
    let parent = parents(book, a);
    let own = dependent(book, a, &parent);
    let from_income = income_contribution(book, own.available);
    let raw = parent.contribution + from_income + own.from_assets;
    indexed(Formula::A, parent, own, from_income, raw)
}

// The index of an independent student without dependents.
fn single_index(book: &Book, a: &Application) -> IndexLines
    ensures value { result ≡ lines_of B book.now a.now }
    ensures in_range { IsIndex result.index }
{
    let own = single(book, a);
    let from_income = income_contribution(book, own.available);
    let raw = from_income + own.from_assets;
    indexed(Formula::B, no_lines(), own, from_income, raw)
}

// The index of an independent student with dependents.
fn family_index(book: &Book, a: &Application) -> IndexLines
    ensures value { result ≡ lines_of C book.now a.now }
    ensures in_range { IsIndex result.index }
{
    let own = family(book, a);
    let raw = own.contribution;
    indexed(Formula::C, no_lines(), own, 0, raw)
}

// An answer, with its raw index brought to the range of an index.
fn indexed(
    formula: Formula,
    parent: ParentLines,
    own: ParentLines,
    from_income: i64,
    raw: i64,
) -> IndexLines
    ensures value { result ≡ indexed_of formula parent own from_income raw }
    ensures in_range { IsIndex result.index }
{
    IndexLines {
        formula,
        parent,
        own,
        from_income,
        raw,
        index: bounded(raw),
    }
}

// A raw index brought to the range of an index.
fn bounded(raw: i64) -> i32
    ensures value { result ≡ bounded_of raw }
    ensures in_range { IsIndex result }
{
    raw.max(-1500).min(999_999) as i32
}
