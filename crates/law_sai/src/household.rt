//! The lines that every household has.
ghost use Rattle.std.specs.Prelude.{◌≡◌, ℕ, ◌≤◌, ◌<◌, ◌+◌, ◌-◌, length, IfSome, unsigned_abs, pos, ◌≤ℤ◌};
ghost use Rattle.aid_types.specs.Ranges.{EachIsAmount, IsAmount, IsRate, IsSumOf};
ghost use Rattle.aid_books.specs.Marginal.{value_at as value_at_of};
ghost use Rattle.law_sai.specs.Household.{
  asset_contribution as asset_contribution_of,
  asset_protection as asset_protection_of,
  business_worth as business_worth_of,
  earned as earned_of,
  employment_allowance as employment_allowance_of,
  income_offsets as income_offsets_of,
  medicare as medicare_of,
  medicare_threshold as medicare_threshold_of,
  oasdi as oasdi_of,
  payroll_allowance as payroll_allowance_of,
  schedule_value as schedule_value_of,
  tax_allowance as tax_allowance_of,
  total_income as total_income_of,
  untaxed_income as untaxed_income_of,
};

use aid_books::{Ages, Book, Brackets, Employment, Payroll};
use aid_types::{Side, share};

/// Total income (HEA 480(a)).
#[tactic(auto, unfolding(crate::specs::Household::total_income))]
pub fn total_income(side: &Side) -> i64
    ensures value { result ≡ total_income_of side.now }
    ensures in_range { IsSumOf 9 result }
{
    i64::from(side.agi) + untaxed_income(side) - income_offsets(side)
}

// Untaxed income and benefits (HEA 480(b)).
fn untaxed_income(side: &Side) -> i64
    ensures value { result ≡ untaxed_income_of side.now }
    ensures in_range { IsSumOf 5 result }
{
    i64::from(side.ira + side.interest + side.ira_untaxed + side.pension + side.foreign)
}

// What is taken off income (HEA 480(e)).
fn income_offsets(side: &Side) -> i64
    ensures value { result ≡ income_offsets_of side.now }
    ensures in_range { IsSumOf 3 result }
{
    i64::from(side.grants + side.credits + side.work_study)
}

/// The allowance for federal income tax (HEA 475(c)(1)(A)).
#[tactic(auto, unfolding(crate::specs::Household::tax_allowance))]
pub fn tax_allowance(side: &Side) -> i64
    ensures value { result ≡ tax_allowance_of side.now }
    ensures in_range { IsSumOf 1 result }
{
    i64::from(side.tax.max(0))
}

// What both earned.
fn earned(side: &Side) -> i64
    ensures value { result ≡ earned_of side.now }
    ensures not_negative { pos 0 ≤ℤ result }
    ensures in_range { IsSumOf 2 result }
{
    i64::from(side.earned_first + side.earned_second)
}

// The amount from which the higher Medicare rate is due.
fn medicare_threshold(payroll: &Payroll, married: bool) -> i64
    ensures value { result ≡ medicare_threshold_of payroll.now married }
    ensures in_range { IsAmount result }
{
    if married {
        payroll.threshold_married
    } else {
        payroll.threshold_single
    }
}

/// The payroll tax allowance (HEA 478(g)).
#[tactic(auto, unfolding(crate::specs::Household::payroll_allowance))]
pub fn payroll_allowance(payroll: &Payroll, married: bool, side: &Side) -> i64
    ensures value { result ≡ payroll_allowance_of payroll.now married side.now }
    ensures in_range { IsSumOf 5 result }
{
    let first = oasdi(payroll, i64::from(side.earned_first));
    let second = oasdi(payroll, i64::from(side.earned_second));
    let insurance = first + second;
    insurance + medicare(payroll, married, earned(side))
}

// The old age insurance of one earner.
#[tactic(auto, unfolding(crate::specs::Household::oasdi))]
fn oasdi(payroll: &Payroll, earned: i64) -> i64
    requires { IsAmount earned }
    ensures value { result ≡ oasdi_of payroll.now earned }
    ensures in_range { IsSumOf 1 result }
{
    share(earned.min(payroll.oasdi_cap), payroll.oasdi_rate)
}

// The Medicare tax of what both earned.
#[tactic(auto, unfolding(crate::specs::Household::medicare))]
fn medicare(payroll: &Payroll, married: bool, earned: i64) -> i64
    requires not_negative { pos 0 ≤ℤ earned }
    requires in_range { IsSumOf 2 earned }
    ensures value { result ≡ medicare_of payroll.now married earned }
    ensures in_range { IsSumOf 3 result }
{
    let threshold = medicare_threshold(payroll, married);
    share(earned.min(threshold), payroll.medicare_rate)
        + share((earned - threshold).max(0), payroll.medicare_high)
}

/// The employment expense allowance (HEA 478(h)).
#[tactic(auto, unfolding(crate::specs::Household::employment_allowance))]
pub fn employment_allowance(employment: &Employment, side: &Side) -> i64
    ensures value { result ≡ employment_allowance_of employment.now side.now }
    ensures in_range { IsSumOf 2 result }
{
    employment.cap.min(share(earned(side), employment.rate))
}

/// The adjusted net worth of a business (HEA 478(c)).
#[tactic(auto, unfolding(crate::specs::Household::business_worth))]
pub fn business_worth(rows: &Brackets, x: i64) -> i64
    requires { IsAmount x }
    ensures value { result ≡ business_worth_of rows.now x }
    ensures in_range { IsSumOf 3 result }
{
    match value_at(rows, x) {
        Some(value) => value,
        None => 0,
    }
}

/// The asset protection allowance (HEA 478(d)).
#[tactic(auto, unfolding(crate::specs::Household::asset_protection))]
pub fn asset_protection(rows: &Ages, married: bool, age: i64) -> i64
    ensures value { result ≡ asset_protection_of rows.now married age }
    ensures in_range { IsAmount result }
{
    match rows.as_slice().iter().rev().find(|row| row.start <= age) {
        Some(row) => { if married { row.married } else { row.single } }
        None => 0,
    }
}

/// The contribution from assets.
#[tactic(auto, unfolding(crate::specs::Household::asset_contribution))]
pub fn asset_contribution(discretionary: i64, rate: i64) -> i64
    requires { IsRate rate }
    ensures value { result ≡ asset_contribution_of discretionary rate }
    ensures no_greater { unsigned_abs result ≤ unsigned_abs discretionary }
{
    share(discretionary, rate).max(0)
}

/// The assessment schedule's value of an adjusted available income (HEA 475(e), 477(d)).
#[tactic(auto, unfolding(crate::specs::Household::schedule_value))]
pub fn schedule_value(book: &Book, x: i64) -> i64
    requires { IsSumOf 280 x }
    ensures value { result ≡ schedule_value_of book.now x }
    ensures in_range { IsSumOf 282 result }
{
    if x < book.schedule.low_at {
        return book.schedule.low;
    }
    match value_at(&book.bracket, x) {
        Some(value) => value,
        None => share(x, book.schedule.first_rate),
    }
}

/// A table's value at an amount, where a row begins below it.
pub fn value_at(rows: &Brackets, x: i64) -> Option<i64>
    requires { IsSumOf 280 x }
    ensures value { result ≡ value_at_of rows.now x }
    ensures in_range { (n : ℕ) → IsSumOf n x → IfSome result (IsSumOf (n + 2)) }
{
    let row = rows.row_at(x)?;
    Some(row.base + share(x - row.over, row.rate))
}
