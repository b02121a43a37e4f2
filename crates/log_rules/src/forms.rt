// The rows of a desk.
use crate::{OfficeRules, OutcomeText, RuleMachine, RuleResponse, put_answer};
use format_rows::{RowError, TableForm, TextRows, put_error, put_fine};
use log_machine::{RowFormat, Rows};
use std::alloc::{AllocError, Global};
use std::marker::PhantomData;

/// The rows of a text that weren't taken yet, each of a kind of the rules' table.
#[derive(Drop)]
pub struct TableRows<R: OfficeRules> {
    rows: TextRows<TableForm<R>>,
}

/// How such rows are read from a text.
#[derive(Drop)]
pub struct TableRowFormat<R> {
    of: PhantomData<R>,
}

impl<R: OfficeRules> TableRowFormat<R> {
    /// Those of the rules' table.
    pub fn new() -> Self {
        TableRowFormat { of: PhantomData }
    }
}

impl<R: OutcomeText> Rows<RuleMachine<R>> for TableRows<R> {
    ghost use Rattle.format_rows.specs.Meanings.{meanings};
    ghost use Rattle.format_rows.specs.TableRowFormat.{row_meaning};
    ghost use Rattle.log_rules.specs.Lines.{table_texts};

    type RowFormat = TableRowFormat<R>;

    type Error = RowError;

    ghost texts = { table_texts R.code_of R.numbers_of R.outcome_text };

    ghost rows_of = { λ forms text. meanings (row_meaning R.words R.key R.kinds) text };

    ghost left = { λ r. r.rows };

    fn at_most(&self) -> u32 {
        self.rows.at_most()
    }

    fn most() -> u32 {
        200_000
    }

    fn next(&mut self) -> Result<Option<Result<R::Entry, RowError>>, AllocError> {
        self.rows.next()
    }

    fn put_answer(
        number: u32,
        front: u32,
        response: &RuleResponse<R::Outcome>,
        out: &mut Vec<u8>,
    ) -> Result<(), AllocError> {
        put_answer::<R>(number, front, response, out)
    }

    fn put_error(error: &RowError, out: &mut Vec<u8>) -> Result<(), AllocError> {
        put_error(error, out)
    }
}

impl<R: OutcomeText> RowFormat<RuleMachine<R>> for TableRowFormat<R> {
    ghost use Rattle.format_rows.specs.Lines.{fine_line};

    type Rows = TableRows<R>;

    ghost fine_line = { fine_line };

    fn read(&self, alloc: Global, text: Vec<u8>) -> Result<TableRows<R>, AllocError> {
        Ok(TableRows {
            rows: TextRows::new(alloc, text),
        })
    }

    fn put_fine(number: u32, out: &mut Vec<u8>) -> Result<(), AllocError> {
        put_fine(number, out)
    }
}
