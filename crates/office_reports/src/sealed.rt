//! The texts that tell of the seal of an office's filings. A slice has the oldest first.
ghost use Rattle.std.specs.Prelude.{◌≡◌, IfOk, length, reverse};
ghost use Rattle.office_reports.specs.Seals.{seal_report, seals_report};

use crate::table::put_count;
use aid_filings::Filing;
use aid_seals::{first_seal, put_sealed_line};
use aid_stamps::Stamp;
use office_export::{OFFICE, PayloadBuffer, seal_of_filings, sealed_with};
use std::alloc::{AllocError, Global};

/// The line that tells of the seal: `sealed`, how many filings there are, and 64 digits. An `Err` is want of memory.
pub fn seal_line(alloc: Global, filings: &[Filing], stamps: &[Stamp]) -> Result<Vec<u8>, AllocError>
    requires stamped { length stamps.now ≡ length filings.now }
    ensures { IfOk result (λ text. text.items ≡ seal_report (reverse filings.now) (reverse stamps.now)) }
{
    let seal = seal_of_filings(alloc, filings, stamps)?;
    let mut out = Vec::new(alloc);
    put_sealed_line(filings.len(), &seal, &mut out)?;
    Ok(out)
}

/// Such a line of each front of the list, that of no filing first, and how many they are; in the same one pass. An `Err` is want of
/// memory.
pub fn seal_lines(
    alloc: Global,
    filings: &[Filing],
    stamps: &[Stamp],
) -> Result<Vec<u8>, AllocError>
    requires stamped { length stamps.now ≡ length filings.now }
    ensures { IfOk result (λ text. text.items ≡ seals_report (reverse filings.now) (reverse stamps.now)) }
{
    let mut room = PayloadBuffer::new(alloc)?;
    let mut seal = first_seal(&OFFICE);
    let mut out = Vec::new(alloc);
    put_sealed_line(0, &seal, &mut out)?;
    for (index, filing) in filings.iter().enumerate() {
        seal = sealed_with(seal, filing, &stamps[index], &mut room);
        put_sealed_line(index + 1, &seal, &mut out)?;
    }
    put_count(filings.len() + 1, &mut out)?;
    Ok(out)
}
