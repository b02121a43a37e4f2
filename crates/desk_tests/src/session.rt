//! A session of marks: rows in, lines out.
ghost use Rattle.std.specs.Prelude.{[]};
ghost use Rattle.format_rows.specs.Meanings.{meanings};
ghost use Rattle.format_rows.specs.TableRowFormat.{row_meaning};
ghost use Rattle.log_session.specs.Sessions.{Session};
ghost use Rattle.log_rules.specs.Lines.{table_texts};
ghost use Rattle.log_rules.specs.Ruled.{semantics_of, scheme_of};
ghost use Rattle.desk_tests.specs.Marks.{code_of, left_text, mark_key, mark_kinds, marking, numbers_of};

use crate::{MarkList, Marks};
use io_traits::{Disk, Sink, Source};
use log_rules::TableRowFormat;
use log_session::{INPUT_LIMIT, SessionStop, file};
use std::alloc::Global;

/// Files the rows of an input into the list of the disk's file, and answers each by a line.
pub fn file_marks<D: Disk, S: Source, K: Sink>(
    alloc: Global,
    disk: D,
    input: &mut S,
    out: &mut K,
) -> (Result<(), SessionStop>, D)
    ensures { Session D.Disk (scheme_of marking) (semantics_of marking) (table_texts code_of numbers_of left_text) (meanings (row_meaning [] mark_key mark_kinds))
        INPUT_LIMIT disk result.1
        (record { honest = S.honest input.old; before = S.left input.old; after = S.left input.new })
        (record { honest = K.honest out.old; before = K.text out.old; after = K.text out.new }) result.0 }
{
    let forms = TableRowFormat::<Marks>::new();
    file::<D, S, K, MarkList, TableRowFormat<Marks>>(alloc, disk, &forms, input, out)
}
