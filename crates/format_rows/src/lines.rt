//! The lines that tell what rows are, and that a filing is refused.
ghost use Rattle.std.specs.Prelude.{◌≡◌, ◌+◌, ◌≤◌, ◌++◌, IsOk, OnErr, OnOk, vec_capacity, vec_len};
ghost use Rattle.format_rows.specs.Lines.{error_line, fine_line, refused_text, tally_line};

use crate::error::RowError;
use crate::numbers::{push_count, push_number};
use aid_types::Refusal;
use arrayvec::ArrayString;
use std::alloc::AllocError;

/// Appends the line of a row that is no filing. Where the vector has room for 160 more bytes no memory is taken.
pub fn put_error(error: &RowError, out: &mut Vec<u8>) -> Result<(), AllocError>
    ensures ok { OnOk result (out.new.items ≡ out.old.items ++ error_line error.now) }
    ensures err { OnErr result (out.new.items ≡ out.old.items) }
    ensures room { vec_len out.old + 160 ≤ vec_capacity out.old → IsOk result }
{
    let mut line = ArrayString::<160>::new();
    push_count(&mut line, error.row);
    line.push_str(" error ");
    push_count(&mut line, u32::from(error.field));
    line.push_str(" ");
    push_count(&mut line, u32::from(error.cause.number()));
    line.push_str("\n");
    out.extend_from_slice(line.as_str().as_bytes())
}

/// Appends the line of a row that means a filing. Where the vector has room for 160 more bytes no memory is taken.
pub fn put_fine(row: u32, out: &mut Vec<u8>) -> Result<(), AllocError>
    ensures ok { OnOk result (out.new.items ≡ out.old.items ++ fine_line row) }
    ensures err { OnErr result (out.new.items ≡ out.old.items) }
    ensures room { vec_len out.old + 160 ≤ vec_capacity out.old → IsOk result }
{
    let mut line = ArrayString::<160>::new();
    push_count(&mut line, row);
    line.push_str(" fine\n");
    out.extend_from_slice(line.as_str().as_bytes())
}

/// Appends the line of a whole text: how many rows it has, and how many of them are no filings. Where the vector has room
/// for 160 more bytes no memory is taken.
pub fn put_tally(rows: u32, errors: u32, out: &mut Vec<u8>) -> Result<(), AllocError>
    ensures ok { OnOk result (out.new.items ≡ out.old.items ++ tally_line rows errors) }
    ensures err { OnErr result (out.new.items ≡ out.old.items) }
    ensures room { vec_len out.old + 160 ≤ vec_capacity out.old → IsOk result }
{
    let mut line = ArrayString::<160>::new();
    line.push_str("rows ");
    push_count(&mut line, rows);
    line.push_str(" errors ");
    push_count(&mut line, errors);
    line.push_str("\n");
    out.extend_from_slice(line.as_str().as_bytes())
}

/// The line of a filing that is refused, in the row with a number, where `front` filings stood before it.
pub fn refused_line(row: u32, front: u32, refusal: &Refusal) -> ArrayString<160>
    ensures { result.bytes ≡ refused_text row front refusal.now }
{
    let mut line = ArrayString::<160>::new();
    push_count(&mut line, row);
    line.push_str(" ");
    push_count(&mut line, front);
    line.push_str(" refused ");
    push_count(&mut line, u32::from(refusal.rule));
    line.push_str(" ");
    push_number(&mut line, refusal.kept);
    line.push_str(" ");
    push_number(&mut line, refusal.bound);
    line.push_str("\n");
    line
}
