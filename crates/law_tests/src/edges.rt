//! The edges of the book's tables.
ghost use Rattle.aid_types.specs.Ranges.{IsAmount, IsSumOf};

use crate::households::nothing;
use aid_books::{BoxedBook, Bracket};
use aid_types::Year;
use law_sai::{
    asset_protection, business_worth, employment_allowance, payroll_allowance, schedule_value,
};
use specimen::specimen_book;
use std::process::Abort;
use std::test::Fail;

// Asserts an amount at a place of a table.
fn assert_amount(rt: &impl Abort, found: i64, wanted: i64, place: i64) {
    assert_eq!(rt; found, wanted, "at {place}");
}

// Asserts the schedule's value of an adjusted available income.
fn assert_schedule(rt: &impl Abort, income: i64, value: i64)
    requires { IsSumOf 1 income }
{
    assert_amount(rt, schedule_value(&specimen_book(), income), value, income);
}

#[test]
fn schedule(rt: HostRuntime) {
    assert_schedule(&rt, -7000, -1500);
    assert_schedule(&rt, -6821, -1500);
    assert_schedule(&rt, -6820, -1500);
    assert_schedule(&rt, 0, 0);
    assert_schedule(&rt, 20_500, 4510);
    assert_schedule(&rt, 20_501, 4510);
    assert_schedule(&rt, 20_502, 4511);
    assert_schedule(&rt, 25_700, 5810);
    assert_schedule(&rt, 25_701, 5810);
    assert_schedule(&rt, 30_900, 7318);
    assert_schedule(&rt, 36_200, 9120);
    assert_schedule(&rt, 41_500, 11_240);
    assert_schedule(&rt, 41_501, 11_240);
    assert_schedule(&rt, 41_502, 11_241);
}

// Asserts the adjusted net worth of a business.
fn assert_business(rt: &impl Abort, worth: i64, adjusted: i64)
    requires { IsAmount worth }
{
    assert_amount(
        rt,
        business_worth(&specimen_book().business, worth),
        adjusted,
        worth,
    );
}

#[test]
fn businesses(rt: HostRuntime) {
    assert_business(&rt, 0, 0);
    assert_business(&rt, 1, 0);
    assert_business(&rt, 2, 1);
    assert_business(&rt, 165_000, 66_000);
    assert_business(&rt, 165_001, 66_001);
    assert_business(&rt, 490_000, 228_500);
    assert_business(&rt, 490_001, 228_501);
    assert_business(&rt, 815_000, 423_500);
    assert_business(&rt, 815_001, 423_501);
}

// Asserts what is protected of the assets of a single and of a married person of an age.
fn assert_age(rt: &impl Abort, age: i64, single: i64, married: i64) {
    let book = specimen_book();
    assert_amount(rt, asset_protection(&book.age, false, age), single, age);
    assert_amount(rt, asset_protection(&book.age, true, age), married, age);
}

#[test]
fn ages(rt: HostRuntime) {
    assert_age(&rt, 25, 0, 0);
    assert_age(&rt, 26, 500, 800);
    assert_age(&rt, 39, 500, 800);
    assert_age(&rt, 40, 2500, 6000);
    assert_age(&rt, 64, 2500, 6000);
    assert_age(&rt, 65, 4000, 10_000);
}

// Asserts the parents' allowance and the guideline of a family of this size.
fn assert_sizes(rt: &impl Abort, family: u8, allowance: i64, guideline: i64) {
    let book = specimen_book();
    let place = i64::from(family);
    assert_amount(rt, book.protection.parents.at(family), allowance, place);
    assert_amount(rt, book.poverty.contiguous.at(family), guideline, place);
}

#[test]
fn sizes_of_family(rt: HostRuntime) {
    assert_sizes(&rt, 1, 28_530, 14_580);
    assert_sizes(&rt, 2, 28_530, 19_720);
    assert_sizes(&rt, 6, 60_540, 40_280);
    assert_sizes(&rt, 7, 67_380, 45_420);
    assert_sizes(&rt, 8, 74_220, 50_560);
    assert_sizes(&rt, 9, 81_060, 55_700);
    assert_sizes(&rt, 30, 224_700, 163_640);
}

// Asserts the two allowances of a household that earned so much.
fn assert_earnings(
    rt: &impl Abort,
    first: i32,
    second: i32,
    married: bool,
    payroll: i64,
    employment: i64,
)
    requires first_in_range { IsAmount first }
    requires second_in_range { IsAmount second }
{
    let book = specimen_book();
    let mut side = nothing();
    side.earned_first = first;
    side.earned_second = second;
    assert_amount(
        rt,
        payroll_allowance(&book.payroll, married, &side),
        payroll,
        i64::from(first),
    );
    assert_amount(
        rt,
        employment_allowance(&book.employment, &side),
        employment,
        i64::from(first),
    );
}

#[test]
fn earnings(rt: HostRuntime) {
    assert_earnings(&rt, 168_600, 0, false, 12_898, 4730);
    assert_earnings(&rt, 168_700, 0, false, 12_899, 4730);
    assert_earnings(&rt, 200_000, 0, false, 13_353, 4730);
    assert_earnings(&rt, 200_043, 0, false, 13_354, 4730);
    assert_earnings(&rt, 125_000, 125_000, true, 19_125, 4730);
    assert_earnings(&rt, 13_513, 0, false, 1034, 4730);
    assert_earnings(&rt, 13_512, 0, false, 1034, 4729);
    assert_earnings(&rt, 8, 8, false, 0, 6);
}

// Asserts where the row of an amount begins, 0 where there is none.
fn assert_row(rt: &impl Abort, amount: i64, over: i64) {
    let found = match specimen_book().bracket.row_at(amount) {
        Some(row) => row.over,
        None => 0,
    };
    assert_amount(rt, found, over, amount);
}

#[test]
fn rows_of_an_amount(rt: HostRuntime) {
    assert_row(&rt, 27_817, 25_700);
    assert_row(&rt, 25_700, 20_500);
    assert_row(&rt, 20_500, 0);
}

#[test]
fn rows_have_three_figures(rt: HostRuntime) {
    let book = specimen_book();
    let row = Bracket {
        over: 25_700,
        base: 5810,
        rate: 2900,
    };
    let first = Bracket {
        over: 0,
        base: 0,
        rate: 4000,
    };
    assert!(rt; book.bracket.row_at(27_817) == Some(row));
    assert!(rt; book.business.row_at(1) == Some(first));
    assert!(rt; book.age.as_slice().len() == 4);
}

#[test]
fn books_are_told_apart(rt: HostRuntime) -> Result<(), Fail> {
    let boxed = BoxedBook::new(Box::new(rt.alloc(), specimen_book())?);
    assert!(rt; *boxed.as_book() == specimen_book());
    let mut other = specimen_book();
    other.year = Year(2026);
    assert!(rt; other != specimen_book());
    Ok(())
}
