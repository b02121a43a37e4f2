//! Pieces of lines, each with a byte behind it.
ghost use Rattle.std.specs.Prelude.{◌≡◌, ◌∷◌, ◌++◌, [], IfOk, OnOk, codes, decimal};
ghost use Rattle.aid_types.specs.Cents.{cents_text};
ghost use Rattle.format_filings.specs.Replies.{outcome_text};
ghost use Rattle.law_terms.specs.Days.{day_text};
ghost use Rattle.office_sheets.specs.Lists.{clerk_text};

use aid_filings::Outcome;
use aid_types::{Day, put_cents};
use format_filings::outcome_line;
use itoa::Buffer;
use law_terms::put_day;
use std::alloc::{AllocError, Global};

/// The text that tells that there is no line.
pub fn none_text(alloc: Global) -> Result<Vec<u8>, AllocError>
    ensures { IfOk result (λ text. text.items ≡ codes "none\n") }
{
    let mut text = Vec::new(alloc);
    text.extend_from_slice(b"none\n")?;
    Ok(text)
}

/// Appends a text and a byte behind it.
pub fn put_bytes(text: &[u8], end: u8, out: &mut Vec<u8>) -> Result<(), AllocError>
    ensures { OnOk result (out.new.items ≡ out.old.items ++ text.now ++ end ∷ []) }
{
    out.extend_from_slice(text)?;
    out.push(end)?;
    Ok(())
}

/// Appends a number and a byte behind it.
pub fn put_number(number: u64, end: u8, out: &mut Vec<u8>) -> Result<(), AllocError>
    ensures { OnOk result (out.new.items ≡ out.old.items ++ decimal number ++ end ∷ []) }
{
    let mut digits = Buffer::new();
    put_bytes(digits.format(number).as_bytes(), end, out)
}

/// Appends cents as dollars, and a byte behind them.
pub fn put_dollars(cents: u64, end: u8, out: &mut Vec<u8>) -> Result<(), AllocError>
    ensures { OnOk result (out.new.items ≡ out.old.items ++ cents_text cents ++ end ∷ []) }
{
    put_cents(cents, out)?;
    out.push(end)?;
    Ok(())
}

/// Appends a day and a byte behind it.
pub fn put_day_column(day: Day, end: u8, out: &mut Vec<u8>) -> Result<(), AllocError>
    ensures { OnOk result (out.new.items ≡ out.old.items ++ day_text day ++ end ∷ []) }
{
    put_day(day, out)?;
    out.push(end)?;
    Ok(())
}

/// Appends an outcome, and a line feed.
pub(crate) fn put_outcome(outcome: &Outcome, out: &mut Vec<u8>) -> Result<(), AllocError>
    ensures { OnOk result (out.new.items ≡ out.old.items ++ outcome_text outcome.now ++ 10 ∷ []) }
{
    let line = outcome_line(outcome);
    put_bytes(line.as_str().as_bytes(), b'\n', out)
}

/// A clerk's name, or a hyphen in its place where there is none.
pub fn clerk_or_hyphen(name: &[u8]) -> &[u8]
    ensures { result.now ≡ clerk_text name.now }
{
    match name {
        [] => b"-",
        [_, ..] => name,
    }
}
