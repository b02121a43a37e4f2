//! A standing, and the last line, behind good lines.
ghost use Rattle.std.specs.Prelude.{◌≡◌, ◌↔◌, ◌<◌, ◌≤◌, false, length, Some, IfOk, IsTrue};
ghost use Rattle.office_history.specs.Answer.{IsLegal};
ghost use Rattle.office_export.specs.Forms.{end_form, form_of, standing_form};
ghost use Rattle.audit.specs.Steps.{IsAbove, IsJudged, Keeps, Told};

use crate::finding::{WRONG_COUNTS, WRONG_STANDING};
use crate::good_lines::GoodLines;
use crate::lists::AuditedList;
use aid_types::{Student, Year};
use office_export::{put_end_line, put_standing_line, seal_of_filings};
use std::alloc::{AllocError, Global};

/// Judges the line of a standing behind good lines: it has to be the line that tells where the student stands on all filings, and
/// its student the greatest so far. An `Err` is want of memory.
pub(crate) fn judge_standing<L: AuditedList>(
    alloc: Global,
    lines: &mut GoodLines<L>,
    line: &[u8],
    student: Student,
    year: Year,
) -> Result<Option<u8>, AllocError>
    requires legal { IsLegal (L.filings lines.old.list) }
    requires room { lines.old.standings < 4294967295 }
    requires before_end { lines.old.ended ≡ false }
    requires form { form_of line.now ≡ Some (standing_form student year) }
    ensures { (told : Told) → Keeps L.filings lines.old told → IfOk result (λ cause. IsJudged L.most L.filings told line.now cause lines.new) }
{
    let _year = year.number();
    let row = lines.list.standing(student, year);
    let mut right = Vec::new(alloc);
    put_standing_line(student, year, &row, &mut right)?;
    if !is_same(line, right.as_slice()) {
        return Ok(Some(WRONG_STANDING));
    }
    if !is_above(lines.last, student) {
        return Ok(Some(WRONG_STANDING));
    }
    lines.last = Some(student);
    lines.standings += 1;
    Ok(None)
}

// Whether a line is the right one.
fn is_same(line: &[u8], right: &[u8]) -> bool
    ensures { IsTrue result ↔ (line.now ≡ right.now) }
{
    line == right
}

// Whether a student's number is above that of the last one.
fn is_above(last: Option<Student>, student: Student) -> bool
    ensures above { IsTrue result ↔ IsAbove last student }
    ensures least { 1 ≤ student }
    ensures most { student ≤ 999999999999 }
{
    let number = student.0;
    match last {
        Some(last) => last.0 < number,
        None => true,
    }
}

/// Judges the last line behind good lines, by how many filings and standings there were, and the seal of the filings. An `Err` is want of memory.
pub(crate) fn judge_end<L: AuditedList>(
    alloc: Global,
    lines: &mut GoodLines<L>,
    line: &[u8],
) -> Result<Option<u8>, AllocError>
    requires few { length (L.filings lines.old.list) ≤ L.most }
    requires paired { length lines.old.stamps.items ≡ length (L.filings lines.old.list) }
    requires before_end { lines.old.ended ≡ false }
    requires form { form_of line.now ≡ Some end_form }
    ensures { (told : Told) → Keeps L.filings lines.old told → IfOk result (λ cause. IsJudged L.most L.filings told line.now cause lines.new) }
{
    // How many it takes tells that the count fits.
    let _most = L::most();
    let filings = lines.list.filings();
    let seal = seal_of_filings(alloc, filings, &lines.stamps)?;
    let mut right = Vec::new(alloc);
    put_end_line(filings.len() as u32, lines.standings, &seal, &mut right)?;
    if !is_same(line, right.as_slice()) {
        return Ok(Some(WRONG_COUNTS));
    }
    lines.ended = true;
    Ok(None)
}
