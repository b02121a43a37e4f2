// A text that is one book.
ghost use Rattle.aid_types.specs.Ranges.{IsBetween};

use aid_filings::{Filing, Operation, Response};
use format_books::BookError;
use format_filings::{book_filing, put_answer, put_book_error, put_fine};
use law_rules::MOST_FILINGS;
use log_machine::{RowFormat, Rows, StateMachine};
use run_words::BookNumber;
use std::alloc::{AllocError, Global};

/// The book of a text, or why the text is none, until it was filed.
#[derive(Drop)]
pub struct BookRow {
    book: Option<Result<Filing, BookError>>,
}

impl<R: StateMachine<Operation = Operation, Response = Response>> Rows<R> for BookRow {
    ghost use Rattle.run_rows.specs.Asks.{book_left, book_rows, book_texts};

    type RowFormat = BookRowFormat;

    type Error = BookError;

    ghost texts = { book_texts };

    ghost rows_of = { λ forms text. book_rows forms.book.number text };

    ghost left = { λ r. book_left r.book };

    fn at_most(&self) -> u32 {
        u32::from(self.book.is_some())
    }

    fn most() -> u32 {
        MOST_FILINGS
    }

    fn next(&mut self) -> Result<Option<Result<Operation, BookError>>, AllocError> {
        Ok(match self.book.take() {
            Some(Ok(filing)) => Some(Ok(Operation::File(filing))),
            Some(Err(error)) => Some(Err(error)),
            None => None,
        })
    }

    fn put_answer(
        number: u32,
        front: u32,
        response: &Response,
        out: &mut Vec<u8>,
    ) -> Result<(), AllocError> {
        put_answer(number, front, response, out)
    }

    fn put_error(error: &BookError, out: &mut Vec<u8>) -> Result<(), AllocError> {
        put_book_error(error, out)
    }
}

/// The form of a book that the office's own desk files under a number.
#[derive(Drop)]
pub struct BookRowFormat {
    pub book: BookNumber,
}

impl<R: StateMachine<Operation = Operation, Response = Response>> RowFormat<R> for BookRowFormat {
    ghost use Rattle.format_filings.specs.Lines.{fine_line};

    type Rows = BookRow;

    ghost fine_line = { fine_line };

    fn read(&self, alloc: Global, text: Vec<u8>) -> Result<BookRow, AllocError> {
        let book = book_filing(alloc, self.book.number, &text)?;
        Ok(BookRow { book: Some(book) })
    }

    fn put_fine(number: u32, out: &mut Vec<u8>) -> Result<(), AllocError> {
        put_fine(number, out)
    }
}
