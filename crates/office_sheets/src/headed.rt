//! Lines below a heading.
ghost use Rattle.std.specs.Prelude.{◌≡◌, ◌++◌, IfOk, OnOk, map};
ghost use Rattle.std.specs.List.{concat};
ghost use Rattle.office_sheets.specs.Headed.{headed};

use crate::pieces::none_text;
use office_reports::ReportLine;
use std::alloc::{AllocError, Global};

/// The lines of rows below their heading, or that there is none. An `Err` is want of memory.
pub fn headed_text<L: ReportLine>(
    alloc: Global,
    heading: &[u8],
    rows: &[L],
) -> Result<Vec<u8>, AllocError>
    ensures { IfOk result (λ text. text.items ≡ headed heading.now (map L.line rows.now)) }
{
    if rows.is_empty() {
        return none_text(alloc);
    }
    let mut out = Vec::new(alloc);
    out.extend_from_slice(heading)?;
    put_lines(rows, &mut out)?;
    Ok(out)
}

// Appends the line of each row.
fn put_lines<L: ReportLine>(rows: &[L], out: &mut Vec<u8>) -> Result<(), AllocError>
    ensures { OnOk result (out.new.items ≡ out.old.items ++ concat (map L.line rows.now)) }
{
    for row in rows {
        row.put(out)?;
    }
    Ok(())
}
