//! A run that writes a text of a desk's list.
ghost use Rattle.std.specs.Prelude.{◌≡◌, ◌⊎◌, ◌≤◌, ◌++◌, ℕ, IsTrue, List, Some, map, string_bytes};
ghost use Rattle.io_traits.specs.Faults.{Rose};
ghost use Rattle.io_traits.specs.DiskState.{EachImage, EachMoment, IsHonest};
ghost use Rattle.log_machine.specs.Recovers.{Recovers};
ghost use Rattle.log_rules.specs.Ruled.{scheme_of};
ghost use Rattle.log_runs.specs.Counts.{Shows};
ghost use Rattle.log_runs.specs.Lists.{IsListAt};
ghost use Rattle.run_reports.specs.Runs.{RanReport, edges};
ghost use Rattle.desk_sheets.specs.Runs.{asked_by};
ghost use Rattle.desk_sheets.specs.Sheets.{desk_text};
ghost use Rattle.desk_sheets.specs.Words.{row_in};
ghost use Rattle.desk_sheets.specs.declared.request.DeskSheetRow.{DeskSheetRow as RowData};

use crate::request::row_of;
use crate::sheet::DeskReport;
use io_traits::{Disk, Sink};
use log_rules::{OfficeRules, RuleMachine};
use run_reports::run_report;
use std::alloc::Global;

/// Writes the text that the words ask for, and answers the status and the disk as it is then. A row of words is `report seal`, the line
/// of the seal of the desk's filings, or `report seals`, such a line of each front of the list; in front of either may stand `upto
/// POSITION`, of the list as it stood when so many filings were on it, and `none` where there are fewer. Nothing is filed.
///
/// The status is 0 where the text was written; 2 where the words are no row, and then no call is made on the disk; 4 where a write
/// failed, 5 where the disk failed, 6 where the file is no list, 7 where it is damaged, and 9 where there is no memory. At each but 0
/// and 4 the last line of the text names the fault.
pub fn run_desk_sheets<D: Disk, K: Sink, R: OfficeRules>(
    alloc: Global,
    words: &Vec<String>,
    disk: D,
    out: &mut K,
) -> (u8, D)
    // Over an honest disk each image of which recovers a list, a run that was done has written exactly the text of this list, and at no
    // moment does an image recover another one. What a file recovers is one list at most, and within the limits of the desk's law.
    ensures shown { (row : RowData) (past : List R.Entry) → row_in (map string_bytes words.now.items) ≡ Some row → result.0 ≡ 0 → IsHonest (D.tells disk) → IsTrue (K.honest out.old)
        → EachImage (D.tells disk) (λ file. Recovers (scheme_of R.ruling) file past) → K.text out.new ≡ K.text out.old ++ desk_text (scheme_of R.ruling) row past }
    ensures keeps { (past : List R.Entry) → IsHonest (D.tells disk) → EachImage (D.tells disk) (λ file. Recovers (scheme_of R.ruling) file past)
        → EachMoment (D.tells disk) (D.tells result.1) (λ file. Recovers (scheme_of R.ruling) file past) }
    ensures one { (file : List ℕ) (past other : List R.Entry) → Recovers (scheme_of R.ruling) file past → Recovers (scheme_of R.ruling) file other → past ≡ other }
    ensures within { (file : List ℕ) (past : List R.Entry) → Recovers (scheme_of R.ruling) file past → R.IsWithin past }

    // All that a run does, by its words and by how it ended: the text, the disk at every moment, the counts, and the status.
    ensures ran { RanReport D.Disk K.Sink (scheme_of R.ruling) (edges (K.faults out.old, K.faults out.new) (D.faults disk, D.faults result.1))
        (asked_by (scheme_of R.ruling) (row_in (map string_bytes words.now.items))) disk result.1 out.old out.new result.0 }

    // 4 and 5 come only where the count of the sink or the disk rose, and no fault is passed over.
    ensures shows { Shows (edges (K.faults out.old, K.faults out.new) (D.faults disk, D.faults result.1)) result.0 }

    // Where no count rose, a row over a desk's list is done, if there is memory.
    ensures complete { (row : RowData) → row_in (map string_bytes words.now.items) ≡ Some row → IsListAt (scheme_of R.ruling) (D.tells disk)
        → ¬ (Rose (K.faults out.old) (K.faults out.new)) → ¬ (Rose (D.faults disk) (D.faults result.1)) → (result.0 ≡ 0) ⊎ (result.0 ≡ 9) }

    ensures sink_later { K.faults out.old ≤ K.faults out.new }
    ensures disk_later { D.faults disk ≤ D.faults result.1 }
    ensures sink_honest { K.honest out.new ≡ K.honest out.old }
    ensures disk_honest { (D.tells result.1).honest ≡ (D.tells disk).honest }
{
    match row_of(words.as_slice()) {
        Some(row) => {
            let report = DeskReport { row };
            run_report::<D, K, RuleMachine<R>, DeskReport>(alloc, Some(&report), disk, out)
        }
        None => run_report::<D, K, RuleMachine<R>, DeskReport>(alloc, None, disk, out),
    }
}
