// A quote that is asked.
use aid_filings::{Operation, Response};
use format_filings::{put_error, put_quote};
use format_rows::RowError;
use law_rules::MOST_FILINGS;
use log_machine::{Rows, StateMachine};
use run_words::QuoteRequest;
use std::alloc::AllocError;

/// The ask for a quote, until it was answered.
#[derive(Drop)]
pub struct QuoteRow {
    quote: Option<QuoteRequest>,
}

impl QuoteRow {
    ghost use Rattle.std.specs.Prelude.{◌≡◌, Some};

    /// The one ask.
    pub fn new(quote: QuoteRequest) -> QuoteRow
        ensures { result.quote ≡ Some quote }
    {
        QuoteRow { quote: Some(quote) }
    }
}

impl<R: StateMachine<Operation = Operation, Response = Response>> Rows<R> for QuoteRow {
    ghost use Rattle.std.specs.Prelude.{[]};
    ghost use Rattle.run_rows.specs.Asks.{quote_left, quote_texts};

    type RowFormat = ();

    type Error = RowError;

    ghost texts = { quote_texts };

    ghost rows_of = { λ forms text. [] };

    ghost left = { λ r. quote_left r.quote };

    fn at_most(&self) -> u32 {
        u32::from(self.quote.is_some())
    }

    fn most() -> u32 {
        MOST_FILINGS
    }

    fn next(&mut self) -> Result<Option<Result<Operation, RowError>>, AllocError> {
        match self.quote.take() {
            Some(quote) => Ok(Some(Ok(Operation::Quote {
                school: quote.school,
                student: quote.student,
                year: quote.year,
                term: quote.term,
            }))),
            None => Ok(None),
        }
    }

    fn put_answer(
        _number: u32,
        _front: u32,
        response: &Response,
        out: &mut Vec<u8>,
    ) -> Result<(), AllocError> {
        match response {
            Response::Quoted(cents) => put_quote(*cents, out),
            _ => Ok(()),
        }
    }

    fn put_error(error: &RowError, out: &mut Vec<u8>) -> Result<(), AllocError> {
        put_error(error, out)
    }
}
