//! Days, terms and enrollment: civil dates, the days of a term, enrollment intensity and the payment of a term.
//!
//! Lifetime eligibility used: what a year's Pell Grant takes of the lifetime limit (HEA 401(d)(5)).
#![tactic(auto)]

mod calendar;
mod day_text;
mod terms;
mod units;

pub use calendar::{day, due};
pub use day_text::{put_day, read_day};
pub use terms::{days, intensity, period_pay, shares_day};
pub use units::{MOST_UNITS, most_cents, use_of};
