// Rows that were planned on an open list are filed, and a closing text is written behind their lines.
ghost use Rattle.std.specs.Prelude.{◌≡◌, ◌≢◌, ◌≤◌, ◌<◌, ◌^◌, ℕ, false, Option, Err, IfErr, None, OnOk, length};
ghost use Rattle.io_traits.specs.Faults.{Rose};
ghost use Rattle.log_session.specs.Sessions.{is_disk_fault};
ghost use Rattle.log_session.specs.Planned.{Closes};

use crate::{FileStop, SessionStop, file_rows};
use io_traits::{Disk, Sink, write_whole};
use log_machine::{Log, Rows, StateMachine};
use std::alloc::Global;

/// Files the rows that are left into an open list, on which they were planned: each row's line is written before the next
/// row is filed, and the closing text behind the last.
pub fn file_planned<D: Disk, K: Sink, R: StateMachine, L: Rows<R>>(
    alloc: Global,
    kept: &mut Log<D, R>,
    rows: L,
    closing: &[u8],
    out: &mut K,
) -> Result<(), FileStop>
    requires few { length (L.left rows) < 2 ^ 32 }
    requires decided { kept.old.pending ≡ None }
    ensures closes { Closes D.Disk R.scheme R.semantics L.texts kept.old.history kept.old.disk kept.new.disk
        (record { honest = K.honest out.old; before = K.text out.old; after = K.text out.new }) (L.left rows) closing.now result }
    ensures write_fault { result ≡ Err FileStop.Write → Rose (K.faults out.old) (K.faults out.new) }
    ensures disk_fault { IfErr result (λ stop. (undecided : Option ℕ) → stop ≡ FileStop.DiskFault undecided → Rose (D.faults kept.old.disk) (D.faults kept.new.disk)) }
    ensures disk_unmoved { OnOk result (D.faults kept.new.disk ≡ D.faults kept.old.disk) }
    ensures sink_unmoved { OnOk result (K.faults out.new ≡ K.faults out.old) }
    ensures disk_unmoved_err { IfErr result (λ stop. is_disk_fault (SessionStop.Filing stop) ≡ false → D.faults kept.new.disk ≡ D.faults kept.old.disk) }
    ensures sink_unmoved_err { IfErr result (λ stop. stop ≢ FileStop.Write → K.faults out.new ≡ K.faults out.old) }
    ensures disk_later { D.faults kept.old.disk ≤ D.faults kept.new.disk }
    ensures sink_later { K.faults out.old ≤ K.faults out.new }
    ensures disk_honest { (D.tells kept.new.disk).honest ≡ (D.tells kept.old.disk).honest }
    ensures sink_honest { K.honest out.new ≡ K.honest out.old }
{
    file_rows::<D, K, R, L>(alloc, kept, rows, out)?;
    match write_whole(out, closing) {
        Ok(()) => Ok(()),
        Err(_) => Err(FileStop::Write),
    }
}
