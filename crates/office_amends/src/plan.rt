//! What the rows of an input make of a list.
ghost use Rattle.std.specs.Prelude.{◌≡◌, ◌≤◌, ◌++◌, IfOk, OnOk, length, reverse};
ghost use Rattle.aid_types.specs.Ranges.{IsBetween};
ghost use Rattle.log_stamps.specs.Entries.{stamped};
ghost use Rattle.office_amends.specs.Lines.{amended_line, errors_line, refused_total};
ghost use Rattle.office_amends.specs.Plans.{Plans};

use crate::amending::Amended;
use crate::correction::Correction;
use crate::gathered::{Gathered, corrections_of};
use crate::list::amend_list;
use aid_stamps::Stamp;
use office_index::Office;
use office_sheets::{put_bytes, put_number};
use std::alloc::{AllocError, Global};

/// What becomes of a list.
#[derive(Drop)]
pub enum Amendment {
    /// A row is no correction that fits, or a filing of the new list doesn't stand: the text that tells which.
    NotMade(Vec<u8>),
    /// The new list, with its text.
    Made(Amended),
}

/// Reads the corrections of an input, and makes the new list of an office's, under the stamp of the run. The first record with a number
/// of its own has `number`. The old office is left as it is. An `Err` is want of memory.
pub fn plan_amendment(
    alloc: Global,
    old: &Office,
    stamps: &[Stamp],
    stamp: &Stamp,
    number: u64,
    input: Vec<u8>,
) -> Result<Amendment, AllocError>
    requires as_many { length stamps.now ≡ length old.now.history }
    requires short { length input.items ≤ 16777216 }
    requires number { IsBetween 1 999000000000 number }
    ensures { IfOk result (λ plan. Plans (stamped old.now.history (reverse stamps.now)) stamp.now number input.items plan) }
{
    let Gathered {
        fits,
        text: mut lines,
        errors,
        own: _,
    } = corrections_of(alloc, old, number, input)?;
    if errors > 0 {
        put_errors(errors, &mut lines)?;
        return Ok(Amendment::NotMade(lines));
    }
    let mut made = amend_list(alloc, old, stamps, stamp, fits.as_slice())?;
    let refused = made.position - u64::from(made.office.front());
    if refused > 0 {
        put_refused_total(refused, &mut made.text)?;
        let Amended { text, .. } = made;
        return Ok(Amendment::NotMade(text));
    }
    put_amended(made.position, &mut made.text)?;
    Ok(Amendment::Made(made))
}

// Appends the last line where rows are no corrections that fit.
fn put_errors(count: u32, out: &mut Vec<u8>) -> Result<(), AllocError>
    ensures { OnOk result (out.new.items ≡ out.old.items ++ errors_line count) }
{
    put_bytes(b"errors", b' ', out)?;
    put_number(u64::from(count), b'\n', out)
}

// Appends the last line where filings don't stand.
fn put_refused_total(count: u64, out: &mut Vec<u8>) -> Result<(), AllocError>
    ensures { OnOk result (out.new.items ≡ out.old.items ++ refused_total count) }
{
    put_bytes(b"refused", b' ', out)?;
    put_number(count, b'\n', out)
}

// Appends the last line where all stand.
fn put_amended(count: u64, out: &mut Vec<u8>) -> Result<(), AllocError>
    ensures { OnOk result (out.new.items ≡ out.old.items ++ amended_line count) }
{
    put_bytes(b"amended", b' ', out)?;
    put_number(count, b'\n', out)
}
