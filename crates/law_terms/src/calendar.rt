//! Civil days by the calendar of `jiff`.
ghost use Rattle.std.specs.Prelude.{◌≡◌, ◌+◌, ◌≤◌, pos, ◌+ℤ◌, unsigned_abs, IfSome};
ghost use Rattle.std.specs.Option.{SomeIff};
ghost use Rattle.law_terms.specs.CivilDays.{IsCivilDate, IsDay, LAST_DAY, day_number as number_of, days_from_1900};

use aid_types::Day;
use jiff::ToSpan;
use jiff::civil::Date;

/// The civil day of a year, a month and a day of the month; `None` where there is none from 1900-01-01 to 9999-12-31.
pub fn day(y: i32, m: u8, d: u8) -> Option<Day>
    ensures { SomeIff result (IsCivilDate y m d) (days_from_1900 (unsigned_abs y) m d) }
{
    match day_number(y, m, d) {
        Some(number) => Some(Day(number)),
        None => None,
    }
}

/// The day 45 days later, by which a school returns funds after it determined a withdrawal (34 CFR 668.22(j)(1)); `None`
/// where that is past 9999-12-31.
pub fn due(d: Day) -> Option<Day>
    ensures { SomeIff result (d + 45 ≤ LAST_DAY) (d + 45) }
{
    match days_later(d.0) {
        Some(number) => Some(Day(number)),
        None => None,
    }
}

// The days from 1970-01-01 to a civil date.
fn day_number(y: i32, m: u8, d: u8) -> Option<i32>
    ensures value { SomeIff result (IsCivilDate y m d) (number_of y m d) }
    ensures range { IfSome result IsDay }
{
    if y < 1900 || y > 9999 || m > 12 || d > 31 {
        return None;
    }
    match Date::new(y as i16, m as i8, d as i8) {
        Ok(date) => Some(date.to_plain().to_unix_epoch_day()),
        Err(_) => None,
    }
}

// The day number 45 days later.
fn days_later(d: i32) -> Option<i32>
    requires { IsDay d }
    ensures { SomeIff result (IsDay (d +ℤ pos 45)) (d +ℤ pos 45) }
{
    let Ok(plain) = jiff_core::civil::Date::from_unix_epoch_day(d as i64) else {
        return None;
    };
    match Date::from_plain(plain).checked_add(45.days()) {
        Ok(later) => Some(later.to_plain().to_unix_epoch_day()),
        Err(_) => None,
    }
}
