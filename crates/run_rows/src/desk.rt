// The rows that the desks file.
use aid_filings::{Filing, Operation, Response};
use format_filings::{FilingForm, put_answer, put_error, put_fine};
use format_rows::{RowError, TextRows};
use law_rules::MOST_FILINGS;
use log_machine::{RowFormat, Rows, StateMachine};
use std::alloc::{AllocError, Global};

/// The rows of a text that weren't filed yet.
#[derive(Drop)]
pub struct DeskRows {
    rows: TextRows<FilingForm>,
}

impl<R: StateMachine<Operation = Operation, Response = Response>> Rows<R> for DeskRows {
    ghost use Rattle.std.specs.Prelude.{map};
    ghost use Rattle.run_rows.specs.Asks.{asked, desk_rows, desk_texts};

    type RowFormat = DeskRowFormat;

    type Error = RowError;

    ghost texts = { desk_texts };

    ghost rows_of = { λ forms text. desk_rows text };

    ghost left = { λ r. map asked r.rows };

    fn at_most(&self) -> u32 {
        self.rows.at_most()
    }

    fn most() -> u32 {
        MOST_FILINGS
    }

    fn next(&mut self) -> Result<Option<Result<Operation, RowError>>, AllocError> {
        match self.rows.next()? {
            Some(Ok(filing)) => Ok(Some(Ok(Operation::File(filing)))),
            Some(Err(error)) => Ok(Some(Err(error))),
            None => Ok(None),
        }
    }

    fn put_answer(
        number: u32,
        front: u32,
        response: &Response,
        out: &mut Vec<u8>,
    ) -> Result<(), AllocError> {
        put_answer(number, front, response, out)
    }

    fn put_error(error: &RowError, out: &mut Vec<u8>) -> Result<(), AllocError> {
        put_error(error, out)
    }
}

/// The forms of rows of all kinds but books.
#[derive(Drop)]
pub struct DeskRowFormat;

impl<R: StateMachine<Operation = Operation, Response = Response>> RowFormat<R> for DeskRowFormat {
    ghost use Rattle.format_filings.specs.Lines.{fine_line};

    type Rows = DeskRows;

    ghost fine_line = { fine_line };

    fn read(&self, alloc: Global, text: Vec<u8>) -> Result<DeskRows, AllocError> {
        Ok(DeskRows {
            rows: TextRows::new(alloc, text),
        })
    }

    fn put_fine(number: u32, out: &mut Vec<u8>) -> Result<(), AllocError> {
        put_fine(number, out)
    }
}
