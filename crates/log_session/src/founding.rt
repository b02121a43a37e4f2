// A list is founded, and a line says so.
ghost use Rattle.std.specs.Prelude.{◌≡◌, ◌≢◌, ◌≤◌, Err, IfErr, OnOk};
ghost use Rattle.io_traits.specs.Faults.{Rose};
ghost use Rattle.log_session.specs.Sessions.{FoundSession};

use crate::FoundStop;
use io_traits::{Disk, Sink, write_whole};
use log_machine::{FoundFault, Log, StateMachine};
use std::alloc::Global;

/// Founds a list in the disk's file, and then writes the line that says so.
pub fn found<D: Disk, K: Sink, R: StateMachine>(
    alloc: Global,
    disk: D,
    line: &[u8],
    out: &mut K,
) -> (Result<(), FoundStop>, D)
    ensures session { FoundSession D.Disk R.scheme disk result.1 line.now
        (record { honest = K.honest out.old; before = K.text out.old; after = K.text out.new }) result.0 }
    ensures write_fault { result.0 ≡ Err FoundStop.Write → Rose (K.faults out.old) (K.faults out.new) }
    ensures disk_fault { result.0 ≡ Err (FoundStop.Founding FoundFault.DiskFault) → Rose (D.faults disk) (D.faults result.1) }
    ensures sink_unmoved { OnOk result.0 (K.faults out.new ≡ K.faults out.old) }
    ensures disk_unmoved { OnOk result.0 (D.faults result.1 ≡ D.faults disk) }
    ensures sink_unmoved_err { IfErr result.0 (λ stop. stop ≢ FoundStop.Write → K.faults out.new ≡ K.faults out.old) }
    ensures disk_unmoved_err { IfErr result.0 (λ stop. stop ≢ FoundStop.Founding FoundFault.DiskFault → D.faults result.1 ≡ D.faults disk) }
    ensures sink_later { K.faults out.old ≤ K.faults out.new }
    ensures disk_later { D.faults disk ≤ D.faults result.1 }
    ensures sink_honest { K.honest out.new ≡ K.honest out.old }
    ensures disk_honest { (D.tells result.1).honest ≡ (D.tells disk).honest }
{
    match Log::<D, R>::found(alloc, disk) {
        Ok(kept) => {
            let disk = kept.into_disk();
            match write_whole(out, line) {
                Ok(()) => (Ok(()), disk),
                Err(_) => (Err(FoundStop::Write), disk),
            }
        }
        Err((fault, disk)) => (Err(FoundStop::Founding(fault)), disk),
    }
}
