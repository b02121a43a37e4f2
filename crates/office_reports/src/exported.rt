//! The export of a year, which an auditor who trusts nothing can check.
ghost use Rattle.std.specs.Prelude.{◌≡◌, ◌++◌, IfOk, OnOk, length, map, reverse};
ghost use Rattle.std.specs.List.{concat};
ghost use Rattle.office_export.specs.Exports.{export_text};
ghost use Rattle.office_export.specs.Lines.{payload_line, standing_line};
ghost use Rattle.office_export.specs.Seals.{payloads};
ghost use Rattle.office_history.specs.Answer.{standing_of};

use crate::gathered::applicants;
use aid_filings::Filing;
use aid_stamps::Stamp;
use aid_types::{Student, Year};
use office_export::{
    PayloadBuffer, put_end_line, put_filing_line, put_standing_line, seal_of_filings,
};
use office_index::Office;
use std::alloc::{AllocError, Global};

/// All filings, the oldest first, each under its stamp in hexadecimal; where each student with an application in the year stands, by
/// student number; how many there are of both; and the seal of the filings. Three passes over the filings and one look-up for each
/// student. An `Err` is want of memory.
pub fn export(
    alloc: Global,
    office: &Office,
    stamps: &[Stamp],
    year: Year,
) -> Result<Vec<u8>, AllocError>
    // Each filing has its stamp.
    requires stamped { length stamps.now ≡ length office.now.history }
    ensures { IfOk result (λ text. text.items ≡ export_text office.now.history (reverse stamps.now) year) }
{
    let filings = office.filings();
    let front = office.front();
    let students = applicants(alloc, filings, year)?;
    let mut out = filing_lines(alloc, filings, stamps)?;
    put_standings(office, year, students.as_slice(), &mut out)?;
    let seal = seal_of_filings(alloc, filings, stamps)?;
    put_end_line(front, students.len() as u32, &seal, &mut out)?;
    Ok(out)
}

// The lines of filings under their stamps.
fn filing_lines(alloc: Global, filings: &[Filing], stamps: &[Stamp]) -> Result<Vec<u8>, AllocError>
    requires stamped { length stamps.now ≡ length filings.now }
    ensures { IfOk result (λ text. text.items ≡ concat (map payload_line (reverse (payloads (reverse filings.now) (reverse stamps.now))))) }
{
    let mut room = PayloadBuffer::new(alloc)?;
    let mut out = Vec::new(alloc);
    for (index, filing) in filings.iter().enumerate() {
        put_filing_line(filing, &stamps[index], &mut room, &mut out)?;
    }
    Ok(out)
}

// Appends where students stand.
fn put_standings(
    office: &Office,
    year: Year,
    students: &[Student],
    out: &mut Vec<u8>,
) -> Result<(), AllocError>
    ensures { OnOk result (out.new.items
        ≡ out.old.items ++ concat (map (λ student. standing_line student year (standing_of office.now.history student year)) students.now)) }
{
    for &student in students {
        put_standing_line(student, year, &office.standing(student, year), out)?;
    }
    Ok(())
}
