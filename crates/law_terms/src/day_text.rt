//! The texts of civil days.
ghost use Rattle.std.specs.Prelude.{◌≡◌, ◌<◌, ◌≤◌, ◌++◌, ℕ, List, pos, ◌↔◌, OnOk, OnErr};
ghost use Rattle.law_terms.specs.CivilDays.{IsCivilDate, IsDay, day_number};
ghost use Rattle.law_terms.specs.Days.{day_text};
ghost use Rattle.law_terms.specs.DayText.{IsDayText, IsSpelled, date_text, date_in as date_of, day_in, two_of as two_digits};

use crate::calendar::day;
use aid_types::{Day, Malformed};
use std::alloc::AllocError;

/// The civil day that `text` spells, as `2025-08-25`: four, two and two digits (ISO 8601). `Spelling` where its shape is
/// another one, `Range` where there is no such day from 1900-01-01 to 9999-12-31.
pub fn read_day(text: &[u8]) -> Result<Day, Malformed>
    ensures value { result ≡ day_in text.now }
    ensures ok { (count : ℕ) → (result ≡ Ok count) ↔ IsDayText text.now count }
    ensures range { (result ≡ Err Malformed.Range)
        ↔ ((y : ℕ) × (m : ℕ) × (d : ℕ) × IsSpelled text.now y m d × ¬ IsCivilDate (pos y) m d) }
    ensures spelling { (result ≡ Err Malformed.Spelling) ↔ ((y m d : ℕ) → ¬ IsSpelled text.now y m d) }
{
    read(text)
}

fn read(text: &[u8]) -> Result<Day, Malformed>
    ensures value { result ≡ day_in text.now }
{
    let Some((year, month, day_of_month)) = date_in(text) else {
        return Err(Malformed::Spelling);
    };
    match day(year as i32, month, day_of_month) {
        Some(found) => Ok(found),
        None => Err(Malformed::Range),
    }
}

// The year, the month and the day of a text of that shape.
fn date_in(text: &[u8]) -> Option<(u16, u8, u8)>
    ensures value { result ≡ date_of text.now }
{
    let &[a, b, c, d, b'-', e, f, b'-', g, h] = text else {
        return None;
    };
    let century = two_of(a, b)?;
    let year = two_of(c, d)?;
    let month = two_of(e, f)?;
    let day_of_month = two_of(g, h)?;
    Some((
        100 * u16::from(century) + u16::from(year),
        month,
        day_of_month,
    ))
}

fn two_of(tens: u8, ones: u8) -> Option<u8>
    ensures value { result ≡ two_digits tens ones }
{
    if tens.is_ascii_digit() && ones.is_ascii_digit() {
        Some(10 * (tens - b'0') + (ones - b'0'))
    } else {
        None
    }
}

/// Appends the one text of a day, as `2025-08-25`, which `read_day` reads as that day. After an error, which is want of
/// memory, the vector is as before.
pub fn put_day(d: Day, out: &mut Vec<u8>) -> Result<(), AllocError>
    ensures text { OnOk result (out.new.items ≡ out.old.items ++ day_text d) }
    ensures ok { OnOk result ((text : List ℕ) × IsDayText text d × (out.new.items ≡ out.old.items ++ text)) }
    // No other text is one of that day.
    ensures only { (text : List ℕ) → IsDayText text d → OnOk result (out.new.items ≡ out.old.items ++ text) }
    ensures err { OnErr result (out.new.items ≡ out.old.items) }
{
    let (year, month, day_of_month) = date_of(d.0);
    let text = text_of(year, month, day_of_month);
    out.extend_from_slice(&text)
}

// The civil date of a day number.
fn date_of(number: i32) -> (u16, u8, u8)
    requires { IsDay number }
    ensures is_date { IsCivilDate (pos result.0) result.1 result.2 }
    ensures value { number ≡ day_number (pos result.0) result.1 result.2 }
{
    let Ok(plain) = jiff_core::civil::Date::from_unix_epoch_day(number as i64) else {
        unreachable!();
    };
    (plain.year as u16, plain.month, plain.day)
}

fn text_of(year: u16, month: u8, day_of_month: u8) -> [u8; 10]
    requires year { year ≤ 9999 }
    requires month { month < 100 }
    requires day_of_month { day_of_month < 100 }
    ensures value { result ≡ date_text year month day_of_month }
{
    let century = (year / 100) as u8;
    let rest = (year % 100) as u8;
    [
        b'0' + century / 10,
        b'0' + century % 10,
        b'0' + rest / 10,
        b'0' + rest % 10,
        b'-',
        b'0' + month / 10,
        b'0' + month % 10,
        b'-',
        b'0' + day_of_month / 10,
        b'0' + day_of_month % 10,
    ]
}
