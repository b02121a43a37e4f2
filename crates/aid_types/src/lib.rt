//! Rounding, and the texts of numbers.
//!
//! The numbers, days, terms and applications that filings and answers are made of.
//!
//! A rule as a line of data, and the first broken one of several.
#![tactic(auto)]

mod application;
mod award;
mod by_program;
mod day;
mod line;
mod name;
mod number;
mod term;
mod text;
mod words;

ghost use Rattle.std.specs.Prelude.{◌≡◌, ◌+◌, ◌*◌, ◌^◌, ◌<◌, ◌≤◌, pos, ◌<ℤ◌, ◌≤ℤ◌, ◌*ℤ◌, unsigned_abs};
ghost use Rattle.aid_types.specs.Nearest.{IsNearest, nearest as nearest_of, half_up, share as share_of, to5 as to5_of};

pub use application::{Application, Region, Side};
pub use award::{Formula, Refusal, Way};
pub use by_program::ByProgram;
pub use day::Day;
pub use line::{RuleLine, first_broken, lacks, over, stands, too_early, where_true};
pub use name::Name;
pub use number::{Key, Program, School, Student, Year};
pub use term::{Breaks, Term};
pub use text::{Malformed, put_cents, read_cents, read_whole};
pub use words::{formula_name, program_name, way_name};

// Two numbers below it have a double sum of 64 bits.
const SHORT: u128 = 1 << 61;

/// The whole number nearest to `a / b`, halves away from zero.
pub fn nearest(a: i128, b: i128) -> i128
    requires divisor { pos 0 <ℤ b }
    requires a_in_range { unsigned_abs a ≤ 10 ^ 30 }
    requires b_in_range { unsigned_abs b ≤ 10 ^ 30 }
    ensures value { result ≡ nearest_of a (unsigned_abs b) }
    ensures nearest { IsNearest a (unsigned_abs b) result }
    ensures no_greater { unsigned_abs result ≤ unsigned_abs a }
{
    let size = half_up_quotient(a.unsigned_abs(), b.unsigned_abs());
    if a < 0 { -(size as i128) } else { size as i128 }
}

/// The part of `amount` that a rate of so many ten-thousandths takes, rounded once.
pub fn share(amount: i64, rate: i64) -> i64
    requires not_negative { pos 0 ≤ℤ rate }
    requires at_most_all { rate ≤ℤ pos 10000 }
    ensures value { result ≡ share_of amount rate }
    ensures no_greater { unsigned_abs result ≤ unsigned_abs amount }
{
    nearest(amount as i128 * rate as i128, 10000) as i64
}

/// The multiple of five nearest to `a`.
pub fn to5(a: i64) -> i64
    requires in_range { unsigned_abs a ≤ 10 ^ 12 }
    ensures value { result ≡ to5_of a }
{
    5 * nearest(a as i128, 5) as i64
}

/// The whole number nearest to `n / b`, halves upwards, of numbers that are not negative.
#[tactic(auto, unfolding(crate::specs::Nearest::half_up))]
pub fn nearest_whole(n: u64, b: u64) -> u64
    requires divisor { 0 < b }
    requires room { 2 * n + 2 * b < 2 ^ 64 }
    ensures value { result ≡ half_up n b }
    ensures nearest { IsNearest (pos n) b (pos result) }
    ensures no_greater { result ≤ n }
{
    let double = 2 * b;
    (2 * n + b) / double
}

// The whole number nearest to `n / b`, halves upwards. Numbers of 64 bits, as nearly all are, divide several times as fast.
#[tactic(auto, unfolding(crate::specs::Nearest::half_up))]
fn half_up_quotient(n: u128, b: u128) -> u128
    requires divisor { 0 < b }
    requires room { 2 * n + 2 * b < 2 ^ 128 }
    ensures value { result ≡ half_up n b }
{
    if n < SHORT && b < SHORT {
        return nearest_whole(n as u64, b as u64) as u128;
    }
    (2 * n + b) / (2 * b)
}
