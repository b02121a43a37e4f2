//! A table of lines.
ghost use Rattle.std.specs.Prelude.{◌≡◌, ◌++◌, ℕ, List, IfOk, OnOk, codes, decimal, map};
ghost use Rattle.std.specs.List.{concat};
ghost use Rattle.office_reports.specs.Columns.{table};

use itoa::Buffer;
use std::alloc::{AllocError, Global};

/// What a line of a table tells.
pub trait ReportLine {
    /// How it is written.
    ghost line: { Self → List ℕ };

    /// Appends its line. An `Err` is want of memory.
    fn put(&self, out: &mut Vec<u8>) -> Result<(), AllocError>
        ensures { OnOk result (out.new.items ≡ out.old.items ++ line self.now) };
}

/// The lines of rows, and how many there are. An `Err` is want of memory.
pub fn table_of<L: ReportLine>(alloc: Global, rows: &[L]) -> Result<Vec<u8>, AllocError>
    ensures { IfOk result (λ text. text.items ≡ table (map L.line rows.now)) }
{
    let mut out = Vec::new(alloc);
    for row in rows {
        row.put(&mut out)?;
    }
    put_count(rows.len(), &mut out)?;
    Ok(out)
}

/// Appends the last line of a table.
pub fn put_count(count: usize, out: &mut Vec<u8>) -> Result<(), AllocError>
    ensures { OnOk result (out.new.items ≡ out.old.items ++ codes "rows " ++ decimal count ++ codes "\n") }
{
    let mut digits = Buffer::new();
    out.extend_from_slice(b"rows ")?;
    out.extend_from_slice(digits.format(count).as_bytes())?;
    out.push(b'\n')?;
    Ok(())
}
