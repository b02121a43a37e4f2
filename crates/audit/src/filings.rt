//! A filing behind good lines.
ghost use Rattle.std.specs.Prelude.{◌≡◌, ◌<◌, false, length, Some, IfOk};
ghost use Rattle.aid_stamps.specs.Stamps.{IsStamp};
ghost use Rattle.format_bytes.specs.Numbers.{IsFiling};
ghost use Rattle.office_history.specs.Answer.{IsLegal};
ghost use Rattle.office_export.specs.Forms.{filing_form, form_of};
ghost use Rattle.office_export.specs.Lines.{filing_line};
ghost use Rattle.audit.specs.Steps.{IsJudged, Keeps, Told};

use crate::good_lines::GoodLines;
use crate::lists::AuditedList;
use aid_filings::Filing;
use aid_stamps::Stamp;
use std::alloc::AllocError;

/// Judges a filing under its stamp behind good lines, by the law on the filings before it: the cause why it is bad, or none where it
/// is good and was taken. An `Err` is want of memory.
pub(crate) fn judge_filing<L: AuditedList>(
    lines: &mut GoodLines<L>,
    stamp: Stamp,
    filing: Filing,
) -> Result<Option<u8>, AllocError>
    requires legal { IsLegal (L.filings lines.old.list) }
    requires room { length (L.filings lines.old.list) < L.most }
    requires before_standings { lines.old.standings ≡ 0 }
    requires before_end { lines.old.ended ≡ false }
    requires is_stamp { IsStamp stamp }
    requires is_filing { IsFiling filing }
    requires form { form_of (filing_line stamp filing) ≡ Some filing_form }
    ensures { (told : Told) → Keeps L.filings lines.old told → IfOk result (λ cause. IsJudged L.most L.filings told (filing_line stamp filing) cause lines.new) }
{
    if let Some(cause) = lines.list.take(filing)? {
        return Ok(Some(cause));
    }
    lines.stamps.push(stamp)?;
    Ok(None)
}
