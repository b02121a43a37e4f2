// An office is built in a target.
ghost use Rattle.std.specs.Prelude.{◌≡◌, ◌≤◌, ◌<◌, ◌^◌, List, length, reverse, false, IsTrue};
ghost use Rattle.aid_filings.specs.declared.filing.Filing.{Filing as AnyFiling};
ghost use Rattle.io_traits.specs.Faults.{Rose};
ghost use Rattle.log_stamps.specs.Entries.{entries, stamped};
ghost use Rattle.log_stamps.specs.declared.entry.StampedEntry.{StampedEntry as AnyEntry};
ghost use Rattle.office_history.specs.Answer.{IsLegal};
ghost use Rattle.run_builds.specs.Ends.{is_build_fault};
ghost use Rattle.run_builds.specs.Targets.{Builds};

use crate::ending::BuildFault;
use crate::filings::StampedFilings;
use aid_filings::Filing;
use aid_stamps::Stamp;
use io_traits::{Disk, PayloadBuffer};
use log_builds::build;
use log_machine::StateMachine;
use office_log::StampedOfficeMachine;
use std::alloc::Global;

/// Builds the office of filings with their stamps, the oldest first, each under the plain stamp where there are no more.
pub(crate) fn build_office<B: Disk>(
    alloc: Global,
    filings: Vec<Filing>,
    stamps: Vec<Stamp>,
    target: B,
) -> (Result<(), BuildFault>, B)
    requires few { length filings.items < 2 ^ 32 }
    ensures builds { (list : List (AnyEntry AnyFiling)) → reverse (stamped filings.items stamps.items) ≡ list → IsLegal (entries list)
        → Builds B.Disk list target result.1 result.0 }
    ensures honest { (B.tells result.1).honest ≡ (B.tells target).honest }
    ensures later { B.faults target ≤ B.faults result.1 }
    ensures cause { IsTrue (is_build_fault result.0) → Rose (B.faults target) (B.faults result.1) }
    ensures unmoved { is_build_fault result.0 ≡ false → B.faults result.1 ≡ B.faults target }
{
    let Ok(mut room) = PayloadBuffer::new(alloc) else {
        return (Err(BuildFault::NoMemory), target);
    };
    let mut entries = StampedFilings::new(filings, stamps);
    match build(
        target,
        StampedOfficeMachine::header(),
        &mut entries,
        &mut room,
    ) {
        Ok(target) => (Ok(()), target),
        Err((error, target)) => (Err(BuildFault::Target(error)), target),
    }
}
