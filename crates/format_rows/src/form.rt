// How rows are read.
ghost use Rattle.std.specs.Prelude.{◌≡◌, ℕ, IfOk, List, Result};
ghost use Rattle.csv.specs.Records.{fields_of};
ghost use Rattle.format_rows.specs.Meanings.{said_of};
ghost use Rattle.format_rows.specs.declared.error.RowError.{RowError};

use crate::error::RowError;
use csv::ByteRecord;
use std::alloc::{AllocError, Global};

/// How a row is read, and what it means.
pub trait RowReader {
    /// What a good row gives.
    type Entry: Drop;

    /// What contracts see of it.
    type Said: Drop;

    /// What a row with a number means.
    ghost meaning: { ℕ → List (List ℕ) → Result Self.Said RowError };

    /// What is seen of an entry.
    ghost said: { Self.Entry → Self.Said };

    /// Reads a row. The outer error is want of memory.
    fn read(
        alloc: Global,
        row: u32,
        texts: &ByteRecord,
    ) -> Result<Result<Self::Entry, RowError>, AllocError>
        ensures { IfOk result (λ entry. said_of said entry ≡ meaning row (fields_of texts.now)) };
}
