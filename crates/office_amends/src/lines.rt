//! The lines about a corrected list.
ghost use Rattle.std.specs.Prelude.{◌≡◌, ◌∷◌, ◌++◌, [], OnOk, codes, decimal};
ghost use Rattle.format_filings.specs.Replies.{outcome_text};
ghost use Rattle.format_filings.specs.WrittenRows.{row_text};
ghost use Rattle.office_amends.specs.Lines.{again_line, changed_line, inserted_line, refused_line, replaced_line, voided_line};

use aid_filings::{Filing, Outcome};
use aid_types::Refusal;
use format_filings::{outcome_line, put_row};
use office_sheets::{put_bytes, put_number};
use std::alloc::AllocError;

/// Appends the row of a filing, and a byte behind it.
pub(crate) fn put_whole_row(filing: &Filing, end: u8, out: &mut Vec<u8>) -> Result<(), AllocError>
    ensures { OnOk result (out.new.items ≡ out.old.items ++ row_text filing.now ++ end ∷ []) }
{
    put_row(filing, out)?;
    out.push(end)?;
    Ok(())
}

/// Appends the line of a filing that is replaced by another.
pub(crate) fn put_replaced(
    position: u64,
    old: &Filing,
    new: &Filing,
    out: &mut Vec<u8>,
) -> Result<(), AllocError>
    ensures { OnOk result (out.new.items ≡ out.old.items ++ replaced_line position old.now new.now) }
{
    put_number(position, b' ', out)?;
    put_whole_row(old, b' ', out)?;
    put_bytes(b"replaced", b' ', out)?;
    put_whole_row(new, b'\n', out)
}

/// Appends the line of a filing that is taken out.
pub(crate) fn put_voided(position: u64, old: &Filing, out: &mut Vec<u8>) -> Result<(), AllocError>
    ensures { OnOk result (out.new.items ≡ out.old.items ++ voided_line position old.now) }
{
    put_number(position, b' ', out)?;
    put_whole_row(old, b' ', out)?;
    put_bytes(b"voided", b'\n', out)
}

/// Appends the line of a filing that is put in.
pub(crate) fn put_inserted(position: u64, new: &Filing, out: &mut Vec<u8>) -> Result<(), AllocError>
    ensures { OnOk result (out.new.items ≡ out.old.items ++ inserted_line position new.now) }
{
    put_number(position, b' ', out)?;
    put_whole_row(new, b' ', out)?;
    put_bytes(b"inserted", b'\n', out)
}

/// Appends the line of a filing with another outcome than it had, and nothing where it has the same.
pub(crate) fn put_changed(
    position: u64,
    filing: &Filing,
    was: &Outcome,
    now: &Outcome,
    out: &mut Vec<u8>,
) -> Result<(), AllocError>
    ensures { OnOk result (out.new.items ≡ out.old.items ++ changed_line position filing.now was.now now.now) }
{
    let was = outcome_line(was);
    let now = outcome_line(now);
    if was.as_str().as_bytes() == now.as_str().as_bytes() {
        return Ok(());
    }
    put_number(position, b' ', out)?;
    put_whole_row(filing, b' ', out)?;
    put_bytes(b"was", b' ', out)?;
    put_bytes(was.as_str().as_bytes(), b' ', out)?;
    put_bytes(b"now", b' ', out)?;
    put_bytes(now.as_str().as_bytes(), b'\n', out)
}

/// Appends the line of a filing that is refused.
pub(crate) fn put_refused(
    position: u64,
    filing: &Filing,
    refusal: &Refusal,
    out: &mut Vec<u8>,
) -> Result<(), AllocError>
    ensures { OnOk result (out.new.items ≡ out.old.items ++ refused_line position filing.now refusal.now) }
{
    put_number(position, b' ', out)?;
    put_whole_row(filing, b' ', out)?;
    put_bytes(b"refused", b' ', out)?;
    put_number(u64::from(refusal.rule), b' ', out)?;
    put_number(refusal.kept, b' ', out)?;
    put_number(refusal.bound, b'\n', out)
}

/// Appends the line of a filing that stands already.
pub(crate) fn put_again(
    position: u64,
    filing: &Filing,
    at: u32,
    out: &mut Vec<u8>,
) -> Result<(), AllocError>
    ensures { OnOk result (out.new.items ≡ out.old.items ++ again_line position filing.now at) }
{
    put_number(position, b' ', out)?;
    put_whole_row(filing, b' ', out)?;
    put_bytes(b"again", b' ', out)?;
    put_number(u64::from(at), b'\n', out)
}
