//! The seal of the filings of a desk. A slice has the oldest first.
ghost use Rattle.std.specs.Prelude.{◌≡◌, ◌<◌, ◌++◌, [], IfOk, OnOk, codes, decimal, length};
ghost use Rattle.log_rules.specs.Ruled.{history_of, scheme_of};
ghost use Rattle.desk_sheets.specs.Sheets.{list_seal, seal_text, seals_text};
ghost use Rattle.aid_seals.specs.Seals.{next_seal};

use aid_seals::{Seal, first_seal, put_sealed_line};
use io_traits::PayloadBuffer;
use itoa::Buffer;
use log_machine::StateMachine;
use log_rules::{Filed, OfficeRules, RuleMachine};
use std::alloc::{AllocError, Global};

// The seal of no filing.
fn seal_of_none<R: OfficeRules>() -> Seal
    ensures { result.bytes ≡ list_seal (scheme_of R.ruling) [] }
{
    first_seal(&RuleMachine::<R>::header().name)
}

// The seal with one filing more. The room is where it is spelled.
fn sealed_with<R: OfficeRules>(seal: Seal, filing: &R::Entry, room: &mut PayloadBuffer) -> Seal
    ensures { result.bytes ≡ next_seal seal.bytes ((scheme_of R.ruling).spelling filing.now) }
{
    RuleMachine::<R>::encode(filing, room);
    seal.with(room.bytes())
}

/// The line of the seal of the filings, in one pass over them. An `Err` is want of memory.
pub(crate) fn seal_line<R: OfficeRules>(
    alloc: Global,
    filings: &[Filed<R::Entry, R::Outcome>],
) -> Result<Vec<u8>, AllocError>
    ensures { IfOk result (λ text. text.items ≡ seal_text (scheme_of R.ruling) (history_of filings.now)) }
{
    let mut room = PayloadBuffer::new(alloc)?;
    let mut seal = seal_of_none::<R>();
    for filed in filings {
        seal = sealed_with::<R>(seal, &filed.entry, &mut room);
    }
    let mut out = Vec::new(alloc);
    put_sealed_line(filings.len(), &seal, &mut out)?;
    Ok(out)
}

/// Such a line of each front, that of no filing first, and how many they are; in the same one pass. An `Err` is want of memory.
pub(crate) fn seal_lines<R: OfficeRules>(
    alloc: Global,
    filings: &[Filed<R::Entry, R::Outcome>],
) -> Result<Vec<u8>, AllocError>
    requires few { length filings.now < 4294967295 }
    ensures { IfOk result (λ text. text.items ≡ seals_text (scheme_of R.ruling) (history_of filings.now)) }
{
    let mut room = PayloadBuffer::new(alloc)?;
    let mut seal = seal_of_none::<R>();
    let mut out = Vec::new(alloc);
    put_sealed_line(0, &seal, &mut out)?;
    for (index, filed) in filings.iter().enumerate() {
        seal = sealed_with::<R>(seal, &filed.entry, &mut room);
        put_sealed_line(index + 1, &seal, &mut out)?;
    }
    put_count(filings.len() + 1, &mut out)?;
    Ok(out)
}

// Appends how many lines stand before.
fn put_count(count: usize, out: &mut Vec<u8>) -> Result<(), AllocError>
    ensures { OnOk result (out.new.items ≡ out.old.items ++ codes "rows " ++ decimal count ++ codes "\n") }
{
    let mut digits = Buffer::new();
    out.extend_from_slice(b"rows ")?;
    out.extend_from_slice(digits.format(count).as_bytes())?;
    out.push(b'\n')?;
    Ok(())
}
