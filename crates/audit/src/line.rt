//! A line behind good lines.
ghost use Rattle.std.specs.Prelude.{◌≡◌, ◌<◌, ◌≤◌, ◌∷◌, [], true, false, codes, length, Some, IfOk};
ghost use Rattle.office_history.specs.Answer.{IsLegal};
ghost use Rattle.office_export.specs.Forms.{are_digits, filing_form, form_of as form_of_line};
ghost use Rattle.office_export.specs.Lines.{line_of};
ghost use Rattle.office_export.specs.Said.{HasDigits, said};
ghost use Rattle.audit.specs.Steps.{IsJudged, Keeps, Told};

use crate::filings::judge_filing;
use crate::finding::{STRAY, TOO_MANY, UNSPELLED};
use crate::good_lines::GoodLines;
use crate::lists::AuditedList;
use crate::standings::{judge_end, judge_standing};
use office_export::{LineForm, form_of, stamped_in};
use std::alloc::{AllocError, Global};

/// Judges a line behind good lines: the first cause why it is bad, or none where it is good. An `Err` is want of memory.
pub(crate) fn judge_line<L: AuditedList>(
    alloc: Global,
    lines: &mut GoodLines<L>,
    line: &[u8],
) -> Result<Option<u8>, AllocError>
    requires legal { IsLegal (L.filings lines.old.list) }
    requires few { length (L.filings lines.old.list) ≤ L.most }
    requires paired { length lines.old.stamps.items ≡ length (L.filings lines.old.list) }
    requires room { lines.old.standings < 4294967295 }
    ensures { (told : Told) → Keeps L.filings lines.old told → IfOk result (λ cause. IsJudged L.most L.filings told line.now cause lines.new) }
{
    if lines.ended {
        return Ok(Some(STRAY));
    }
    match form_of(line) {
        Some(form) => judge_form(alloc, lines, line, form),
        None => Ok(Some(STRAY)),
    }
}

// Judges a line before the last one, which has this form.
fn judge_form<L: AuditedList>(
    alloc: Global,
    lines: &mut GoodLines<L>,
    line: &[u8],
    form: LineForm,
) -> Result<Option<u8>, AllocError>
    requires legal { IsLegal (L.filings lines.old.list) }
    requires few { length (L.filings lines.old.list) ≤ L.most }
    requires paired { length lines.old.stamps.items ≡ length (L.filings lines.old.list) }
    requires room { lines.old.standings < 4294967295 }
    requires before_end { lines.old.ended ≡ false }
    requires form { form_of_line line.now ≡ Some (said form) }
    requires digits { HasDigits line.now form }
    ensures { (told : Told) → Keeps L.filings lines.old told → IfOk result (λ cause. IsJudged L.most L.filings told line.now cause lines.new) }
{
    match form {
        LineForm::Filing(digits) => judge_digits(alloc, lines, line, digits),
        LineForm::Standing(student, year) => judge_standing(alloc, lines, line, student, year),
        LineForm::End => judge_end(alloc, lines, line),
    }
}

// Judges a filing's line, which has these digits.
fn judge_digits<L: AuditedList>(
    alloc: Global,
    lines: &mut GoodLines<L>,
    line: &[u8],
    digits: &[u8],
) -> Result<Option<u8>, AllocError>
    requires legal { IsLegal (L.filings lines.old.list) }
    requires few { length (L.filings lines.old.list) ≤ L.most }
    requires before_end { lines.old.ended ≡ false }
    requires form { form_of_line line.now ≡ Some filing_form }
    requires digits { line.now ≡ line_of (codes "filing" ∷ digits.now ∷ []) }
    requires are_digits { are_digits digits.now ≡ true }
    ensures { (told : Told) → Keeps L.filings lines.old told → IfOk result (λ cause. IsJudged L.most L.filings told line.now cause lines.new) }
{
    let _ = line;
    if lines.standings > 0 {
        return Ok(Some(STRAY));
    }
    if lines.list.filings().len() == L::most() {
        return Ok(Some(TOO_MANY));
    }
    match stamped_in(alloc, digits)? {
        Some((stamp, filing)) => judge_filing(lines, stamp, filing),
        None => Ok(Some(UNSPELLED)),
    }
}
