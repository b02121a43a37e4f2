// A text that tells of a list is written.
ghost use Rattle.std.specs.Prelude.{◌≡◌, ◌≢◌, ◌≤◌, ℕ, List, false, Err, IsTrue, IfOk, IfErr, OnOk};
ghost use Rattle.io_traits.specs.Faults.{Rose};
ghost use Rattle.log_session.specs.Reports.{Reports};
ghost use Rattle.log_session.specs.Sessions.{is_disk_fault};

use crate::{FileStop, SessionStop, open};
use io_traits::{Disk, Sink, write_whole};
use log_machine::StateMachine;
use std::alloc::{AllocError, Global};

/// A text that tells of the list of a docket.
pub trait Report<R: StateMachine> {
    /// The text, by the entries of the list, the newest first.
    ghost text: { Self → List R.Entry → List ℕ };

    /// The text of the docket's list. An `Err` is want of memory.
    fn write(&self, alloc: Global, machine: &R) -> Result<Vec<u8>, AllocError>
        ensures { IfOk result (λ told. told.items ≡ text self.now (R.history machine.now)) };
}

/// Opens the list of the disk's file, and writes the text that tells of it. Nothing is filed.
pub fn write_report<D: Disk, K: Sink, R: StateMachine, T: Report<R>>(
    alloc: Global,
    disk: D,
    report: &T,
    out: &mut K,
) -> (Result<(), SessionStop>, D)
    ensures reports { Reports D.Disk R.scheme (T.text report.now) disk result.1
        (record { honest = K.honest out.old; before = K.text out.old; after = K.text out.new }) result.0 }
    ensures write_fault { result.0 ≡ Err (SessionStop.Filing FileStop.Write) → Rose (K.faults out.old) (K.faults out.new) }
    ensures disk_fault { IfErr result.0 (λ stop. IsTrue (is_disk_fault stop) → Rose (D.faults disk) (D.faults result.1)) }
    ensures disk_unmoved { OnOk result.0 (D.faults result.1 ≡ D.faults disk) }
    ensures sink_unmoved { OnOk result.0 (K.faults out.new ≡ K.faults out.old) }
    ensures disk_unmoved_err { IfErr result.0 (λ stop. is_disk_fault stop ≡ false → D.faults result.1 ≡ D.faults disk) }
    ensures sink_unmoved_err { IfErr result.0 (λ stop. stop ≢ SessionStop.Filing FileStop.Write → K.faults out.new ≡ K.faults out.old) }
    ensures disk_later { D.faults disk ≤ D.faults result.1 }
    ensures sink_later { K.faults out.old ≤ K.faults out.new }
    ensures disk_honest { (D.tells result.1).honest ≡ (D.tells disk).honest }
    ensures sink_honest { K.honest out.new ≡ K.honest out.old }
{
    let kept = match open::<D, R>(alloc, disk) {
        Ok(kept) => kept,
        Err((error, disk)) => return (Err(SessionStop::Opening(error)), disk),
    };
    let told = match report.write(alloc, kept.machine()) {
        Ok(told) => told,
        Err(_) => return (
            Err(SessionStop::Filing(FileStop::NoMemory)),
            kept.into_disk(),
        ),
    };
    let disk = kept.into_disk();
    match write_whole(out, &told) {
        Ok(()) => (Ok(()), disk),
        Err(_) => (Err(SessionStop::Filing(FileStop::Write)), disk),
    }
}
