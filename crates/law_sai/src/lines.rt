//! The lines of a household together, and the parents' (HEA 475).
ghost use Rattle.std.specs.Prelude.{◌≡◌};
ghost use Rattle.aid_types.specs.Ranges.{IsRate, IsSumOf};
ghost use Rattle.law_sai.specs.Lines.{AreHouseholdLines, AreParentLines, IsNotAssessed, assessed_lines, household_lines, parent_lines};
ghost use Rattle.law_sai.specs.declared.lines.ParentLines.{ParentLines as Lines};

use crate::household::{
    asset_contribution, asset_protection, business_worth, employment_allowance, payroll_allowance,
    schedule_value, tax_allowance, total_income,
};
use aid_books::Book;
use aid_types::{Application, Side};

/// The lines of one household, in dollars.
#[derive(Clone, Copy, PartialEq, Eq, Debug)]
pub struct ParentLines {
    pub total: i64,
    pub tax: i64,
    pub payroll: i64,
    pub protection: i64,
    pub employment: i64,
    pub allowances: i64,
    pub available: i64,
    pub business: i64,
    pub worth: i64,
    pub asset_protection: i64,
    pub discretionary: i64,
    pub from_assets: i64,
    pub adjusted: i64,
    pub contribution: i64,
}

/// The lines of a household's income and assets. `protection` and `employment` are what its formula allows for living
/// and for employment, `rate` is what it takes of assets.
pub fn income_and_assets(
    book: &Book,
    side: &Side,
    married: bool,
    age: i64,
    protection: i64,
    employment: i64,
    rate: i64,
) -> ParentLines
    requires protection_in_range { IsSumOf 256 protection }
    requires employment_in_range { IsSumOf 2 employment }
    requires rate_in_range { IsRate rate }
    ensures lines { AreHouseholdLines book.now side.now married age protection employment rate result }
    ensures not_assessed { IsNotAssessed result }
    ensures value { result ≡ household_lines book.now side.now married age protection employment rate }

    // Nine amounts of income less allowances of 1, 5, 256 and 2; six of worth less the one that is protected.
    ensures available_in_range { IsSumOf 273 result.available }
    ensures assets_in_range { IsSumOf 7 result.from_assets }
{
    let total = total_income(side);
    let tax = tax_allowance(side);
    let payroll = payroll_allowance(&book.payroll, married, side);
    let allowances = tax + payroll + protection + employment;
    let available = total - allowances;
    let business = business_worth(&book.business, i64::from(side.business));
    let worth = i64::from(side.support + side.cash + side.investments) + business;
    let asset_protection = asset_protection(&book.age, married, age);
    let discretionary = worth - asset_protection;
    ParentLines {
        total,
        tax,
        payroll,
        protection,
        employment,
        allowances,
        available,
        business,
        worth,
        asset_protection,
        discretionary,
        from_assets: asset_contribution(discretionary, rate),
        adjusted: 0,
        contribution: 0,
    }
}

/// These lines of a household that the schedule assesses.
pub fn assessed(book: &Book, mut lines: ParentLines) -> ParentLines
    requires available_in_range { IsSumOf 273 lines.available }
    requires assets_in_range { IsSumOf 7 lines.from_assets }
    ensures value { result ≡ assessed_lines book.now lines }
    ensures adjusted_in_range { IsSumOf 280 result.adjusted }
    ensures contribution_in_range { IsSumOf 282 result.contribution }
{
    lines.adjusted = lines.available + lines.from_assets;
    lines.contribution = schedule_value(book, lines.adjusted);
    lines
}

/// The parents' lines (HEA 475(b) to (e)).
pub fn parents(book: &Book, a: &Application) -> ParentLines
    ensures lines { AreParentLines book.now a.now result }
    ensures only { (lines : Lines) → AreParentLines book.now a.now lines → lines ≡ result }
    ensures value { result ≡ parent_lines book.now a.now }
    ensures adjusted_in_range { IsSumOf 280 result.adjusted }
    ensures contribution_in_range { IsSumOf 282 result.contribution }
{
    let protection = book.protection.parents.at(a.family);
    let employment = employment_allowance(&book.employment, &a.parents);
    let lines = income_and_assets(
        book,
        &a.parents,
        a.parents_married,
        i64::from(a.parent_age),
        protection,
        employment,
        book.assets.parents_rate,
    );
    assessed(book, lines)
}
