// The book of a text, and the asks of its year behind it.
ghost use Rattle.std.specs.Prelude.{◌≡◌, ◌≤◌, ◌++◌, IfOk, Some, length};
ghost use Rattle.format_filings.specs.BookRows.{book_said};
ghost use Rattle.format_kinds.specs.declared.kind.Kind.TheVariants.{Book};
ghost use Rattle.format_bytes.specs.Numbers.{kind_of, numbers_of};
ghost use Rattle.run_generate.specs.Texts.{as_rows, first_left, rows_by, year_in};
ghost use Rattle.run_generate.specs.Left.{asks_left};

use crate::{GeneratingMachine, YearOperation, YearOperations, YearResponse};
use aid_filings::{Filing, Operation, Response, What};
use aid_types::Year;
use format_books::BookError;
use format_filings::{book_filing, put_book_error};
use law_rules::MOST_FILINGS;
use log_machine::{RowFormat, Rows, StateMachine};
use std::alloc::{AllocError, Global};

/// The rows of a generated year that weren't taken yet: that of the book, or why its text is none, and those behind it.
#[derive(Drop)]
pub struct YearRows {
    first: Option<Result<Filing, BookError>>,
    operations: YearOperations,
}

// The year of a book's filing.
#[tactic(auto, unfolding(format_bytes::specs::Numbers::facts_of, format_kinds::specs::Book::numbers_of))]
fn year_of(filing: &Filing) -> Year
    requires { kind_of filing.now.what ≡ Book }
    ensures { result ≡ year_in (numbers_of filing.now) }
{
    match &filing.what {
        What::Book(book) => book.as_book().year,
        _ => unreachable!(),
    }
}

impl<R: StateMachine<Entry = Filing, Operation = Operation, Response = Response>> Rows<
    GeneratingMachine<R>,
> for YearRows {
    ghost use Rattle.run_generate.specs.Texts.{rows_of_text, year_texts};

    type RowFormat = YearRowFormat;

    type Error = BookError;

    ghost texts = { year_texts };

    ghost rows_of = { λ forms text. rows_of_text forms.students forms.seed text };

    ghost left = { λ r. first_left r.first ++ as_rows (asks_left r.operations) };

    #[tactic(auto, using(crate::proofs::BookRows::one_more))]
    fn at_most(&self) -> u32 {
        self.operations.at_most() + 1
    }

    fn most() -> u32 {
        MOST_FILINGS
    }

    #[tactic(auto, unfolding(crate::specs::Rows::says))]
    fn next(&mut self) -> Result<Option<Result<YearOperation, BookError>>, AllocError> {
        match self.first.take() {
            Some(Ok(filing)) => Ok(Some(Ok(YearOperation::File(filing)))),
            Some(Err(error)) => Ok(Some(Err(error))),
            None => match self.operations.next() {
                Some(operation) => Ok(Some(Ok(operation))),
                None => Ok(None),
            },
        }
    }

    fn put_answer(
        _number: u32,
        _front: u32,
        _verdict: &YearResponse,
        _out: &mut Vec<u8>,
    ) -> Result<(), AllocError> {
        Ok(())
    }

    fn put_error(error: &BookError, out: &mut Vec<u8>) -> Result<(), AllocError> {
        put_book_error(error, out)
    }
}

/// The form of a generated year: so many students, drawn from a seed.
#[derive(Clone, Copy)]
pub struct YearRowFormat {
    pub students: u16,
    pub seed: u64,
}

impl YearRowFormat {
    // The asks behind the row of a book: those of its year, and none where the text is no book.
    #[tactic(auto, using(crate::proofs::BookRows::rows_behind, crate::proofs::BookRows::none_behind, crate::proofs::Counts::few_left))]
    fn asks_behind(&self, first: &Result<Filing, BookError>) -> YearOperations
        requires book { IfOk first.now (λ filing. kind_of filing.what ≡ Book) }
        ensures rows { first_left (Some first.now) ++ as_rows (asks_left result) ≡ rows_by self.now.students self.now.seed (book_said first.now) }
        ensures few { length (asks_left result) ≤ 400000 }
    {
        match first {
            Ok(filing) => YearOperations::new(year_of(filing), self.students, self.seed),
            Err(_) => YearOperations::none(),
        }
    }
}

impl<R: StateMachine<Entry = Filing, Operation = Operation, Response = Response>> RowFormat<
    GeneratingMachine<R>,
> for YearRowFormat {
    ghost use Rattle.std.specs.Prelude.{[]};

    type Rows = YearRows;

    // No command looks at a generated year without filing it, so such rows have no line.
    ghost fine_line = { λ number. [] };

    #[tactic(auto, using(crate::proofs::BookRows::is_book, crate::proofs::BookRows::one_more))]
    fn read(&self, alloc: Global, text: Vec<u8>) -> Result<YearRows, AllocError> {
        let first = book_filing(alloc, 1, &text)?;
        let operations = self.asks_behind(&first);
        Ok(YearRows {
            first: Some(first),
            operations,
        })
    }

    fn put_fine(_number: u32, _out: &mut Vec<u8>) -> Result<(), AllocError> {
        Ok(())
    }
}
