// How rows are read as filings.
ghost use Rattle.std.specs.Prelude.{ℤ, List};
ghost use Rattle.format_kinds.specs.declared.kind.Kind.{Kind as KindOf};
ghost use Rattle.format_filings.specs.Rows.{filing_said, row_meaning};

use crate::row::filing_of_row;
use aid_filings::Filing;
use csv::ByteRecord;
use format_kinds::Kind;
use format_rows::{RowError, RowReader};
use format_table::Numbers;
use std::alloc::{AllocError, Global};
use std::marker::Model;

/// What contracts see of a filing: its kind and its numbers. No code makes one.
#[derive(Drop)]
pub struct FilingSaid {
    kind: Kind,
    numbers: Numbers,
}

impl Model for FilingSaid {
    ghost Value = { KindOf × List ℤ };

    ghost view = { λ s. (s.kind, s.numbers.items) };
}

/// The rows of all kinds of filings but books.
pub struct FilingForm;

impl RowReader for FilingForm {
    type Entry = Filing;

    type Said = FilingSaid;

    ghost meaning = { row_meaning };

    ghost said = { filing_said };

    fn read(
        alloc: Global,
        row: u32,
        texts: &ByteRecord,
    ) -> Result<Result<Filing, RowError>, AllocError> {
        Ok(filing_of_row(alloc, row, texts))
    }
}
