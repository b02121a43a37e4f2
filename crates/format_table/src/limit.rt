//! Whether a number is within its limit.
ghost use Rattle.std.specs.Prelude.{◌≡◌, All, reverse};
ghost use Rattle.aid_books.specs.Marginal.{row_value};
ghost use Rattle.aid_types.specs.Nearest.{share};
ghost use Rattle.format_table.specs.Limits.{IsNarrow, before, fits as is_within, value_in_row};

use crate::field::Limit;
use aid_types::nearest;

/// Whether a number is within a limit after the numbers before it, the oldest first.
pub fn fits(limit: &Limit, earlier: &[i64], number: i64) -> bool
    requires { All IsNarrow earlier.now }
    ensures { result ≡ is_within limit.now (reverse earlier.now) number }
{
    match *limit {
        Limit::Between(low, high) => low <= number && number <= high,
        Limit::UpToLast(low) => low <= number && number <= number_before(earlier, 0),
        Limit::AboveRow(high) => number_before(earlier, 2) < number && number <= high,
        Limit::Continues(high) => {
            number as i128 == value_of_last_row(earlier) && 0 <= number && number <= high
        }
        Limit::Begins(high) => {
            number as i128 == share_of_first(earlier) && 0 <= number && number <= high
        }
    }
}

// The number so many places before the next, or 0 where there are not so many.
fn number_before(earlier: &[i64], back: usize) -> i64
    requires { All IsNarrow earlier.now }
    ensures value { result ≡ before (reverse earlier.now) back }
    ensures narrow { IsNarrow result }
{
    if back < earlier.len() {
        earlier[earlier.len() - 1 - back]
    } else {
        0
    }
}

// The value that the row before has where the row at hand begins, which is the last number.
fn value_of_last_row(earlier: &[i64]) -> i128
    requires { All IsNarrow earlier.now }
    ensures { result ≡ value_in_row (reverse earlier.now) }
{
    let over = number_before(earlier, 3) as i128;
    let base = number_before(earlier, 2) as i128;
    let rate = number_before(earlier, 1) as i128;
    let begins = number_before(earlier, 0) as i128;
    base + nearest((begins - over) * rate, 10_000)
}

// The share of the last number by the schedule's first rate.
fn share_of_first(earlier: &[i64]) -> i128
    requires { All IsNarrow earlier.now }
    ensures { result ≡ share (before (reverse earlier.now) 0) (before (reverse earlier.now) 4) }
{
    let begins = number_before(earlier, 0) as i128;
    let rate = number_before(earlier, 4) as i128;
    nearest(begins * rate, 10_000)
}
