// The rows of the schools and of their terms.
ghost use Rattle.std.specs.Prelude.{◌≡◌, ◌+◌, ◌<◌, ◌≤◌, ◌∷◌, drop};
ghost use Rattle.aid_types.specs.Ranges.{IsBetween};
ghost use Rattle.law_terms.specs.CivilDays.{days_from_1900, month_days};
ghost use Rattle.run_generate.specs.Rows.{autumn as autumn_of, autumn_row, founding_rows, says, school_row, spring_row, term_row};

use crate::YearOperation;
use aid_filings::{CalendarFacts, Filing, SchoolFacts, What};
use aid_types::{Breaks, Day, Key, School, Year};
use law_terms::day;

/// How many rows found the schools and their terms.
pub const FOUNDING_ROWS: u8 = 12;

// A day of a month of 31 days.
fn civil_day(year: u16, month: u8, day_of_month: u8) -> Day
    requires year { IsBetween 1900 2200 year }
    requires month { IsBetween 1 12 month }
    requires long { month_days year month ≡ 31 }
    requires day_of_month { IsBetween 1 31 day_of_month }
    ensures { result ≡ days_from_1900 year month day_of_month }
{
    match day(i32::from(year), month, day_of_month) {
        Some(found) => found,
        None => unreachable!(),
    }
}

/// The first day of term 1 of a year.
pub fn autumn(year: Year) -> Day
    ensures { result ≡ autumn_of year }
{
    civil_day(year.number(), 8, 25)
}

/// The day so many days later.
pub fn days_later(first: Day, days: u8) -> Day
    requires { first + days ≤ 2958463 }
    ensures { result ≡ first + days }
{
    Day(first.0 + i32::from(days))
}

// The row of a school, counted from 0.
#[tactic(auto, unfolding(format_bytes::specs::Numbers::facts_of, crate::specs::Rows::says))]
fn school(k: u8) -> YearOperation
    requires { k < 4 }
    ensures { says result ≡ school_row k }
{
    YearOperation::File(Filing {
        key: Key {
            school: School(0),
            number: u64::from(k) + 2,
        },
        what: What::School(SchoolFacts {
            code: 101 + u32::from(k),
            terms: 2,
            full: 12,
        }),
    })
}

// A main term of a school, without breaks, filed under its own number.
#[tactic(auto, unfolding(format_bytes::specs::Numbers::facts_of, crate::specs::Rows::says))]
fn term(k: u8, year: Year, number: u8, first: Day, last: Day) -> YearOperation
    requires school { k < 4 }
    requires term { IsBetween 1 8 number }
    ensures { says result ≡ term_row k year number first last }
{
    YearOperation::File(Filing {
        key: Key {
            school: School(101 + u32::from(k)),
            number: u64::from(number),
        },
        what: What::Calendar(CalendarFacts {
            year,
            term: number,
            extra: false,
            first,
            last,
            breaks: Breaks::new(),
        }),
    })
}

// The first term of a school.
fn autumn_term(k: u8, year: Year) -> YearOperation
    requires { k < 4 }
    ensures { says result ≡ autumn_row year k }
{
    term(k, year, 1, autumn(year), civil_day(year.number(), 12, 12))
}

// The second term of a school.
fn spring_term(k: u8, year: Year) -> YearOperation
    requires { k < 4 }
    ensures { says result ≡ spring_row year k }
{
    let next = year.number() + 1;
    term(k, year, 2, civil_day(next, 1, 12), civil_day(next, 5, 1))
}

/// The row at a place among those of the schools and their terms.
pub fn founding_row(year: Year, place: u8) -> YearOperation
    requires { place < 12 }
    ensures { drop place (founding_rows year) ≡ says result ∷ drop (place + 1) (founding_rows year) }
{
    if place < 4 {
        return school(place);
    }
    let k = (place - 4) / 2;
    if place % 2 == 0 {
        autumn_term(k, year)
    } else {
        spring_term(k, year)
    }
}
