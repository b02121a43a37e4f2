//! The tables of a book: their rows, and the first row that does not go on from the one before it.
ghost use Rattle.std.specs.Prelude.{◌≡◌, ◌≤◌, ◌<◌, ◌≤ℤ◌, All, None, IfOk, length, map, pos};
ghost use Rattle.toml.specs.View.{table_view, view};
ghost use Rattle.aid_books.specs.Marginal.{IsBracket, row_value};
ghost use Rattle.aid_types.specs.Ranges.{IsRate};
ghost use Rattle.format_books.specs.Reading.{fields_error};
ghost use Rattle.format_books.specs.Tables.{age_row_of, begins_ages, begins_business, begins_schedule, book_break, bracket_of, break_from, break_in, continues, first_rate_of, is_older, rising_error};

use crate::error::BookError;
use crate::reading::{integer_in, rows, value_at};
use aid_books::{AgeRow, Bracket};
use aid_types::share;
use std::alloc::{AllocError, Global};
use toml::{Table, Value};

// A row of a table that goes by an amount.
fn bracket(row: &Value) -> Bracket
    ensures { result ≡ bracket_of (view row.now) }
{
    Bracket {
        over: integer_in(row.get("over")),
        base: integer_in(row.get("base")),
        rate: integer_in(row.get("rate")),
    }
}

// A row of the table that goes by age.
fn age_row(row: &Value) -> AgeRow
    ensures { result ≡ age_row_of (view row.now) }
{
    AgeRow {
        start: integer_in(row.get("from")),
        single: integer_in(row.get("single")),
        married: integer_in(row.get("married")),
    }
}

// The rows of a table that goes by an amount.
fn brackets(alloc: Global, rows: &[Value]) -> Result<Vec<Bracket>, AllocError>
    ensures { IfOk result (λ v. v.items ≡ map bracket_of (map view rows.now)) }
{
    let mut brackets = Vec::new(alloc);
    for row in rows {
        brackets.push(bracket(row))?;
    }
    Ok(brackets)
}

// The rows of the table that goes by age.
fn ages(alloc: Global, rows: &[Value]) -> Result<Vec<AgeRow>, AllocError>
    ensures { IfOk result (λ v. v.items ≡ map age_row_of (map view rows.now)) }
{
    let mut ages = Vec::new(alloc);
    for row in rows {
        ages.push(age_row(row))?;
    }
    Ok(ages)
}

// The value that a row has at an amount above where it begins.
fn value_of(row: &Bracket, amount: i64) -> i64
    requires row { IsBracket row.now }
    requires above { row.now.over ≤ℤ amount }
    requires in_range { amount ≤ℤ pos 99999999 }
    ensures { result ≡ row_value row.now amount }
{
    row.base + share(amount - row.over, row.rate)
}

// Whether a row begins above the one before it, with the value that the one before it has there.
fn does_continue(row: &Bracket, next: &Bracket) -> bool
    requires row { IsBracket row.now }
    requires next { IsBracket next.now }
    ensures { result ≡ continues row.now next.now }
{
    row.over < next.over && next.base == value_of(row, next.over)
}

// The first row after the first, counted from 1, that does not go on from the one before it.
fn later_break(first: &Bracket, rest: &[Bracket]) -> Option<u16>
    requires few { length rest.now < 64 }
    requires first { IsBracket first.now }
    requires rest { All IsBracket rest.now }
    ensures { result ≡ break_from continues 2 first.now rest.now }
{
    let mut row = *first;
    for (index, next) in rest.iter().enumerate() {
        if !does_continue(&row, next) {
            return Some(index as u16 + 2);
        }
        row = *next;
    }
    None
}

// The same of the table that goes by age.
fn later_age_break(first: &AgeRow, rest: &[AgeRow]) -> Option<u16>
    requires { length rest.now < 64 }
    ensures { result ≡ break_from is_older 2 first.now rest.now }
{
    let mut row = *first;
    for (index, next) in rest.iter().enumerate() {
        if next.start <= row.start {
            return Some(index as u16 + 2);
        }
        row = *next;
    }
    None
}

// The first row of `business` that fails.
fn business_break(rows: &[Bracket]) -> Option<u16>
    requires few { length rows.now ≤ 64 }
    requires in_range { All IsBracket rows.now }
    ensures { result ≡ break_in begins_business continues rows.now }
{
    let Some((first, rest)) = rows.split_first() else {
        return None;
    };
    if first.over == 0 && first.base == 0 {
        later_break(first, rest)
    } else {
        Some(1)
    }
}

// The first row of `age` that fails.
fn age_break(rows: &[AgeRow]) -> Option<u16>
    requires few { length rows.now ≤ 64 }
    ensures { result ≡ break_in begins_ages is_older rows.now }
{
    let Some((first, rest)) = rows.split_first() else {
        return None;
    };
    if first.start == 0 {
        later_age_break(first, rest)
    } else {
        Some(1)
    }
}

// Whether the first row of `bracket` begins with the value of the rate below it.
fn does_begin(first_rate: i64, first: &Bracket) -> bool
    requires rate { IsRate first_rate }
    requires in_range { IsBracket first.now }
    ensures { result ≡ begins_schedule first_rate first.now }
{
    first.base == share(first.over, first_rate)
}

// The first row of `bracket` that fails.
fn bracket_break(first_rate: i64, rows: &[Bracket]) -> Option<u16>
    requires rate { IsRate first_rate }
    requires few { length rows.now ≤ 64 }
    requires in_range { All IsBracket rows.now }
    ensures { result ≡ break_in (begins_schedule first_rate) continues rows.now }
{
    let Some((first, rest)) = rows.split_first() else {
        return None;
    };
    if does_begin(first_rate, first) {
        later_break(first, rest)
    } else {
        Some(1)
    }
}

// The first row of the tables, in their order, that does not go on from the one before it.
fn not_rising(
    first_rate: i64,
    business: &[Bracket],
    age: &[AgeRow],
    bracket: &[Bracket],
) -> Option<BookError>
    requires rate { IsRate first_rate }
    requires few_business { length business.now ≤ 64 }
    requires few_ages { length age.now ≤ 64 }
    requires few_brackets { length bracket.now ≤ 64 }
    requires business_in_range { All IsBracket business.now }
    requires bracket_in_range { All IsBracket bracket.now }
    ensures { result ≡ rising_error first_rate business.now age.now bracket.now }
{
    if let Some(row) = business_break(business) {
        return Some(BookError::NotRising(1, row));
    }
    if let Some(row) = age_break(age) {
        return Some(BookError::NotRising(2, row));
    }
    bracket_break(first_rate, bracket).map(|row| BookError::NotRising(3, row))
}

// The schedule's first rate.
fn first_rate(table: &Table) -> i64
    requires { fields_error (table_view table.now) ≡ None }
    ensures value { result ≡ first_rate_of (table_view table.now) }
    ensures in_range { IsRate result }
{
    integer_in(value_at(table, "schedule", "first_rate"))
}

/// The first row of a text's tables, whose fields are in their ranges, that does not go on from the one before it.
pub fn break_of(alloc: Global, table: &Table) -> Result<Option<BookError>, AllocError>
    requires { fields_error (table_view table.now) ≡ None }
    ensures { IfOk result (λ o. o ≡ book_break (table_view table.now)) }
{
    let business = brackets(alloc, rows(table, "business"))?;
    let age = ages(alloc, rows(table, "age"))?;
    let bracket = brackets(alloc, rows(table, "bracket"))?;
    Ok(not_rising(first_rate(table), &business, &age, &bracket))
}
