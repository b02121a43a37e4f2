//! The student's lines in each formula.
ghost use Rattle.std.specs.Prelude.{◌≡◌, ℕ, ◌+◌};
ghost use Rattle.aid_types.specs.Ranges.{IsSumOf};
ghost use Rattle.law_sai.specs.Index.{
  AreDependentLines,
  age as age_of,
  dependent_lines,
  employment_if_married as employment_if_married_of,
  family_lines,
  family_protection as family_protection_of,
  income_contribution as income_contribution_of,
  no_lines as no_lines_of,
  shortfall as shortfall_of,
  single_lines,
  single_or_married as single_or_married_of,
};

use crate::{
    ParentLines, assessed, employment_allowance, income_and_assets, payroll_allowance,
    tax_allowance, total_income,
};
use aid_books::Book;
use aid_types::{Application, share};

/// The contribution from a student's available income (HEA 475(g), 476(b)).
#[tactic(auto, unfolding(crate::specs::Index::income_contribution))]
pub(crate) fn income_contribution(book: &Book, available: i64) -> i64
    ensures value { result ≡ income_contribution_of book.now available }
    ensures in_range { (n : ℕ) → IsSumOf n available → IsSumOf (n + 1) result }
{
    share(available, book.schedule.student_rate).max(book.schedule.lowest_student)
}

/// The lines of a dependent student (HEA 475(g), (h)).
pub(crate) fn dependent(book: &Book, a: &Application, parent: &ParentLines) -> ParentLines
    requires { IsSumOf 280 parent.now.adjusted }
    ensures lines { AreDependentLines book.now a.now parent.now result }
    ensures value { result ≡ dependent_lines book.now a.now parent.now }

    // Nine amounts of income less allowances of 1, 5, 1 and 280.
    ensures available_in_range { IsSumOf 296 result.available }
    ensures assets_in_range { IsSumOf 3 result.from_assets }
{
    let side = &a.own;
    let total = total_income(side);
    let tax = tax_allowance(side);
    let payroll = payroll_allowance(&book.payroll, false, side);
    let protection = book.protection.dependent_student;
    let shortfall = shortfall(parent);
    let allowances = tax + payroll + protection + shortfall;
    let available = total - allowances;
    let worth = i64::from(side.cash + side.investments + side.business);
    ParentLines {
        total,
        tax,
        payroll,
        protection,
        employment: 0,
        allowances,
        available,
        business: 0,
        worth,
        asset_protection: 0,
        discretionary: worth,
        from_assets: share(worth, book.assets.dependent_rate),
        adjusted: 0,
        contribution: 0,
    }
}

// What the parents' adjusted available income is below 0.
fn shortfall(parent: &ParentLines) -> i64
    requires { IsSumOf 280 parent.now.adjusted }
    ensures value { result ≡ shortfall_of parent.now }
    ensures in_range { IsSumOf 280 result }
{
    (-parent.adjusted).max(0)
}

/// The lines of an independent student without dependents (HEA 476).
pub(crate) fn single(book: &Book, a: &Application) -> ParentLines
    ensures value { result ≡ single_lines book.now a.now }
    ensures available_in_range { IsSumOf 273 result.available }
    ensures assets_in_range { IsSumOf 7 result.from_assets }
{
    income_and_assets(
        book,
        &a.own,
        a.married,
        age(book, a),
        single_or_married(book, a),
        employment_if_married(book, a),
        book.assets.no_dependents_rate,
    )
}

// A student's age in the award year, by years alone.
fn age(book: &Book, a: &Application) -> i64
    ensures { result ≡ age_of book.now a.now }
{
    i64::from(book.year.0) - i64::from(a.birth_year)
}

// What such a student is allowed for living.
fn single_or_married(book: &Book, a: &Application) -> i64
    ensures value { result ≡ single_or_married_of book.now a.now }
    ensures in_range { IsSumOf 1 result }
{
    if a.married {
        book.protection.married_student
    } else {
        book.protection.single_student
    }
}

// What such a student is allowed for employment.
fn employment_if_married(book: &Book, a: &Application) -> i64
    ensures value { result ≡ employment_if_married_of book.now a.now }
    ensures in_range { IsSumOf 2 result }
{
    if a.married {
        employment_allowance(&book.employment, &a.own)
    } else {
        0
    }
}

/// The lines of an independent student with dependents (HEA 477).
pub(crate) fn family(book: &Book, a: &Application) -> ParentLines
    ensures value { result ≡ family_lines book.now a.now }
    ensures contribution_in_range { IsSumOf 282 result.contribution }
{
    let protection = family_protection(book, a);
    let employment = employment_allowance(&book.employment, &a.own);
    let lines = income_and_assets(
        book,
        &a.own,
        a.married,
        age(book, a),
        protection,
        employment,
        book.assets.with_dependents_rate,
    );
    assessed(book, lines)
}

// What such a student is allowed for living.
fn family_protection(book: &Book, a: &Application) -> i64
    ensures value { result ≡ family_protection_of book.now a.now }
    ensures in_range { IsSumOf 256 result }
{
    let allowance = if a.married {
        &book.protection.married_parent
    } else {
        &book.protection.single_parent
    };
    allowance.at(a.family)
}

/// Lines that a formula doesn't have.
pub(crate) fn no_lines() -> ParentLines
    ensures { result ≡ no_lines_of }
{
    ParentLines {
        total: 0,
        tax: 0,
        payroll: 0,
        protection: 0,
        employment: 0,
        allowances: 0,
        available: 0,
        business: 0,
        worth: 0,
        asset_protection: 0,
        discretionary: 0,
        from_assets: 0,
        adjusted: 0,
        contribution: 0,
    }
}
