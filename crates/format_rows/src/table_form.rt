// The rows of a table.
ghost use Rattle.std.specs.Prelude.{◌≡◌, ℕ, ℤ, List};
ghost use Rattle.format_rows.specs.TableRowFormat.{row_meaning, said_by};

use crate::error::RowError;
use crate::form::RowReader;
use crate::row::entry_of_row;
use csv::ByteRecord;
use format_table::{EntryCodec, Numbers};
use std::alloc::{AllocError, Global};
use std::marker::{Model, PhantomData};

/// What contracts see of an entry of a table: the code of its kind, and its numbers. No code makes one.
#[derive(Drop)]
pub struct RowSaid {
    code: u8,
    numbers: Numbers,
}

impl Model for RowSaid {
    ghost Value = { ℕ × List ℤ };

    ghost view = { λ s. (s.code, s.numbers.items) };
}

/// The rows of a table's kinds.
pub struct TableForm<T> {
    table: PhantomData<T>,
}

impl<T: EntryCodec> RowReader for TableForm<T> {
    type Entry = T::Entry;

    type Said = RowSaid;

    ghost meaning = { row_meaning T.words T.key T.kinds };

    ghost said = { said_by T.code_of T.numbers_of };

    fn read(
        _alloc: Global,
        row: u32,
        texts: &ByteRecord,
    ) -> Result<Result<T::Entry, RowError>, AllocError> {
        Ok(entry_of_row::<T>(row, texts))
    }
}
