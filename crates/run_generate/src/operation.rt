// What a generated year asks, and what is answered.
ghost use Rattle.aid_types.specs.Ranges.{IsBetween};

use aid_filings::{Filing, Response};
use aid_types::{Key, Student, Year};

/// A Pell payment of as much as the office quotes to the key's school. `term` is 1 to 8.
#[derive(Clone, Copy)]
pub struct QuotePayment {
    pub key: Key,
    pub student: Student,
    pub year: Year,
    pub term: u8,
    pub ghost in_range: { IsBetween 1 8 term },
}

/// What a generated year asks.
#[derive(Drop)]
pub enum YearOperation {
    /// A filing.
    File(Filing),
    /// A payment of the quote, where that isn't 0.
    PayQuote(QuotePayment),
}

/// How such an ask is judged.
#[derive(Clone, Copy)]
pub enum YearResponse {
    /// A filing, by its verdict.
    Filed(Response),
    /// A payment of so many cents, by its verdict.
    Paid { cents: u64, response: Response },
    /// The quote is 0, so there is no payment.
    NothingToPay,
}
