//! A run that writes a text that tells of a list.
ghost use Rattle.std.specs.Prelude.{◌≡◌, ◌⊎◌, ◌≤◌, ◌++◌, ℕ, IsTrue, List, Result, Some};
ghost use Rattle.io_traits.specs.Faults.{Rose};
ghost use Rattle.io_traits.specs.DiskState.{EachImage, EachMoment, IsHonest};
ghost use Rattle.log_machine.specs.Recovers.{Recovers};
ghost use Rattle.log_runs.specs.Counts.{Shows, written};
ghost use Rattle.log_runs.specs.Ends.{Moved};
ghost use Rattle.log_runs.specs.Lists.{IsListAt};
ghost use Rattle.log_runs.specs.Statuses.{ended_file, is_disk_fault, is_read_fault, is_write_fault};
ghost use Rattle.log_session.specs.Reports.{Reports};
ghost use Rattle.log_session.specs.declared.stop.SessionStop.{SessionStop as Stopping};
ghost use Rattle.run_reports.specs.Runs.{RanReport, edges, text_of};

use io_traits::{Disk, Sink};
use log_machine::StateMachine;
use log_runs::{RunStop, end, ended_filing};
use log_session::{Report, write_report};
use std::alloc::Global;

// Opens the list of the disk's file, and writes the text, up to how it ends.
fn write_text<D: Disk, K: Sink, R: StateMachine, T: Report<R>>(
    alloc: Global,
    report: &T,
    disk: D,
    out: &mut K,
) -> (Result<(), RunStop>, D)
    ensures reports { (ended : Result Unit Stopping) × (result.0 ≡ ended_file ended) × Reports D.Disk R.scheme (T.text report.now) disk result.1
        (record { honest = K.honest out.old; before = K.text out.old; after = K.text out.new }) ended }
    ensures source { Moved (is_read_fault result.0) (0, 0) }
    ensures sink { Moved (is_write_fault result.0) (K.faults out.old, K.faults out.new) }
    ensures disk { Moved (is_disk_fault result.0) (D.faults disk, D.faults result.1) }
    ensures sink_later { K.faults out.old ≤ K.faults out.new }
    ensures disk_later { D.faults disk ≤ D.faults result.1 }
    ensures sink_honest { K.honest out.new ≡ K.honest out.old }
    ensures disk_honest { (D.tells result.1).honest ≡ (D.tells disk).honest }
{
    let (ended, disk) = write_report::<D, K, R, T>(alloc, disk, report, out);
    (ended_filing(ended), disk)
}

/// Writes a text that tells of the list of the disk's file, and answers the status and the disk as it is then. Where there is no text
/// to write, as the words asked for none, no call is made on the disk. Nothing is filed. The list is opened, and the whole text is made,
/// before any of it is written.
///
/// The status is 0 where the text was written; 2 where there is none to write; 4 where a write failed, 5 where the disk failed, 6 where
/// the file is no such list, 7 where it is damaged, and 9 where there is no memory. At each but 0 and 4 the last line of the text names
/// the fault.
pub fn run_report<D: Disk, K: Sink, R: StateMachine, T: Report<R>>(
    alloc: Global,
    report: Option<&T>,
    disk: D,
    out: &mut K,
) -> (u8, D)
    // Over an honest disk each image of which recovers a list, a run that was done has written exactly the text of this list, and at no
    // moment does an image recover another one. What a file recovers is one list at most.
    ensures shown { (text : List R.Entry → List ℕ) (past : List R.Entry) → text_of T.text report.entry ≡ Some text → result.0 ≡ 0 → IsHonest (D.tells disk) → IsTrue (K.honest out.old)
        → EachImage (D.tells disk) (λ file. Recovers R.scheme file past) → K.text out.new ≡ K.text out.old ++ text past }
    ensures keeps { (past : List R.Entry) → IsHonest (D.tells disk) → EachImage (D.tells disk) (λ file. Recovers R.scheme file past)
        → EachMoment (D.tells disk) (D.tells result.1) (λ file. Recovers R.scheme file past) }
    ensures one { (file : List ℕ) (past other : List R.Entry) → Recovers R.scheme file past → Recovers R.scheme file other → past ≡ other }

    // All that a run does, by how it ended: the text, the disk at every moment, the counts, and the status.
    ensures ran { RanReport D.Disk K.Sink R.scheme (edges (K.faults out.old, K.faults out.new) (D.faults disk, D.faults result.1)) (text_of T.text report.entry) disk result.1 out.old out.new result.0 }

    // 4 and 5 come only where the count of the sink or the disk rose, and no fault is passed over.
    ensures shows { Shows (edges (K.faults out.old, K.faults out.new) (D.faults disk, D.faults result.1)) result.0 }

    // Where no count rose, a text of such a list is written, if there is memory.
    ensures complete { (text : List R.Entry → List ℕ) → text_of T.text report.entry ≡ Some text → IsListAt R.scheme (D.tells disk)
        → ¬ (Rose (K.faults out.old) (K.faults out.new)) → ¬ (Rose (D.faults disk) (D.faults result.1)) → (result.0 ≡ 0) ⊎ (result.0 ≡ 9) }

    ensures sink_later { K.faults out.old ≤ K.faults out.new }
    ensures disk_later { D.faults disk ≤ D.faults result.1 }
    ensures sink_honest { K.honest out.new ≡ K.honest out.old }
    ensures disk_honest { (D.tells result.1).honest ≡ (D.tells disk).honest }
{
    match report {
        Some(report) => {
            let (ended, disk) = write_text::<D, K, R, T>(alloc, report, disk, out);
            (end(ended, out), disk)
        }
        None => (end(Err(RunStop::Usage), out), disk),
    }
}
