//! A run that writes a sheet.
ghost use Rattle.std.specs.Prelude.{◌≡◌, ◌⊎◌, ◌≤◌, ◌++◌, ℕ, IsTrue, List, map, string_bytes};
ghost use Rattle.io_traits.specs.Faults.{Rose};
ghost use Rattle.aid_filings.specs.declared.filing.Filing.{Filing};
ghost use Rattle.io_traits.specs.DiskState.{EachImage, EachMoment, IsHonest};
ghost use Rattle.office_log.specs.Openable.{IsOffice};
ghost use Rattle.office_log.specs.Recovers.{Recovers};
ghost use Rattle.log_runs.specs.Counts.{Shows};
ghost use Rattle.office_history.specs.Within.{IsWithinEveryLimit};
ghost use Rattle.log_stamps.specs.Entries.{entries};
ghost use Rattle.log_stamps.specs.declared.entry.StampedEntry.{StampedEntry};
ghost use Rattle.run_reports.specs.Runs.{edges};
ghost use Rattle.run_sheets.specs.Runs.{RanSheets};
ghost use Rattle.run_sheets.specs.Texts.{sheet_text};
ghost use Rattle.run_sheets.specs.Words.{sheet_words};
ghost use Rattle.run_sheets.specs.declared.request.SheetRow.{SheetRow as RowData};

use crate::sheet::SheetReport;
use crate::words::row_of;
use io_traits::{Disk, Sink};
use office_log::StampedOfficeMachine;
use run_reports::run_report;
use std::alloc::Global;

/// Writes the sheet that the words ask for, and answers the status and the disk as it is then. A row of words is a
/// request, in front of which `upto POSITION` may stand: `list` writes all filings, each as its row behind its stamp;
/// `student` the ledger of a student, `need` how the index and the award of a student in a year came about, `review`
/// what is on file of that year in one text, `quotes` what the students of a term could be paid, `payments` what moved
/// in it, `withdrawal` the worksheet of a return of funds, `due` what a school still has to send back, `returns` what
/// came of a year's returns, and `report` a report of the aid office. Behind `upto POSITION` the sheet is that of the
/// list as it stood when so many filings were on it, and `none` where there are fewer. Nothing is filed.
/// The office is opened, and the whole text is made, before any of it is written.
///
/// The status is 0 where the text was written; 2 where the words are no row, and then no call is made on the disk; 4
/// where a write failed, 5 where the disk failed, 6 where the file is no office, 7 where it is damaged, and 9 where there
/// is no memory. At each but 0 and 4 the last line of the text names the fault.
pub fn run_sheets<D: Disk, K: Sink>(
    alloc: Global,
    words: &Vec<String>,
    disk: D,
    out: &mut K,
) -> (u8, D)
    // Over an honest disk each image of which recovers a list, a run that was done has written exactly the sheet of this
    // list, and at no moment does an image recover another one. What a file recovers is one list at most, in which no
    // student stands above a limit.
    ensures shown { (row : RowData) (past : List (StampedEntry Filing)) → map string_bytes words.now.items ≡ sheet_words row → result.0 ≡ 0 → IsHonest (D.tells disk) → IsTrue (K.honest out.old)
        → EachImage (D.tells disk) (λ file. Recovers file past) → K.text out.new ≡ K.text out.old ++ sheet_text row past }
    ensures keeps { (past : List (StampedEntry Filing)) → IsHonest (D.tells disk) → EachImage (D.tells disk) (λ file. Recovers file past)
        → EachMoment (D.tells disk) (D.tells result.1) (λ file. Recovers file past) }
    ensures within { (file : List ℕ) (history : List (StampedEntry Filing)) → Recovers file history → IsWithinEveryLimit (entries history) }
    ensures one { (file : List ℕ) (history other : List (StampedEntry Filing)) → Recovers file history → Recovers file other → history ≡ other }

    // All that a run does, by its words and by how it ended: the text, the disk at every moment, the counts, and the status.
    ensures ran { RanSheets D.Disk K.Sink (edges (K.faults out.old, K.faults out.new) (D.faults disk, D.faults result.1)) (map string_bytes words.now.items) disk result.1 out.old out.new result.0 }

    // 4 and 5 come only where the count of the sink or the disk rose, and no fault is passed over.
    ensures shows { Shows (edges (K.faults out.old, K.faults out.new) (D.faults disk, D.faults result.1)) result.0 }

    // Where no count rose, a row over an office is done, if there is memory.
    ensures complete { (row : RowData) → map string_bytes words.now.items ≡ sheet_words row → IsOffice (D.tells disk)
        → ¬ (Rose (K.faults out.old) (K.faults out.new)) → ¬ (Rose (D.faults disk) (D.faults result.1)) → (result.0 ≡ 0) ⊎ (result.0 ≡ 9) }

    ensures sink_later { K.faults out.old ≤ K.faults out.new }
    ensures disk_later { D.faults disk ≤ D.faults result.1 }
    ensures sink_honest { K.honest out.new ≡ K.honest out.old }
    ensures disk_honest { (D.tells result.1).honest ≡ (D.tells disk).honest }
{
    match row_of(words.as_slice()) {
        Some(row) => {
            let report = SheetReport { row };
            run_report::<D, K, StampedOfficeMachine, SheetReport>(alloc, Some(&report), disk, out)
        }
        None => run_report::<D, K, StampedOfficeMachine, SheetReport>(alloc, None, disk, out),
    }
}
