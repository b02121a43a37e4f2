// A journal of version 1 is copied into one of version 2.
ghost use Rattle.std.specs.Prelude.{◌≡◌, ◌⊎◌, ◌≤◌, ℕ, List, length, false, IsTrue, ◌++◌};
ghost use Rattle.io_traits.specs.Faults.{Rose};
ghost use Rattle.aid_filings.specs.declared.filing.Filing.{Filing};
ghost use Rattle.io_traits.specs.DiskState.{EachImage, EachMoment, IsHonest, IsRead};
ghost use Rattle.log_journal.specs.Stands.{IsUnborn};
ghost use Rattle.office_log.specs.Recovers.{Recovers};
ghost use Rattle.log_runs.specs.Ends.{Moved};
ghost use Rattle.office_history.specs.Answer.{IsLegal};
ghost use Rattle.run_builds.specs.Ends.{copied_line, is_build_fault, is_source_fault, is_target_fault};
ghost use Rattle.run_builds.specs.Targets.{Builds, NoneOrAll, under_plain};
ghost use Rattle.run_builds.specs.Upgrades.{Copies, IsOldOffice, RecoversOld, Upgrades, ended_upgrade as ended_upgrade_of};

use crate::ending::{BuildFault, UpgradeEnd};
use crate::source::read_source;
use crate::target::build_office;
use io_traits::{Disk, Sink};
use log_machine::StateMachine;
use office_log::OfficeMachine;
use std::alloc::Global;

// Builds the target of the filings of an office, each under the plain stamp.
fn copy<B: Disk>(alloc: Global, office: OfficeMachine, target: B) -> (Result<(), BuildFault>, B)
    requires legal { IsLegal (⟦<OfficeMachine as StateMachine>⟧.history office) }
    ensures builds { Builds B.Disk (under_plain (⟦<OfficeMachine as StateMachine>⟧.history office)) target result.1 result.0 }
    ensures honest { (B.tells result.1).honest ≡ (B.tells target).honest }
    ensures later { B.faults target ≤ B.faults result.1 }
    ensures cause { IsTrue (is_build_fault result.0) → Rose (B.faults target) (B.faults result.1) }
    ensures unmoved { is_build_fault result.0 ≡ false → B.faults result.1 ≡ B.faults target }
{
    let _few = office.front();
    build_office(alloc, office.into_filings(alloc), Vec::new(alloc), target)
}

// All but the last line.
fn read_and_copy<A: Disk, B: Disk>(alloc: Global, source: A, target: B) -> (UpgradeEnd, A, B)
    ensures copies { Copies A.Disk B.Disk source target result.2 result.0 }
    ensures source_read { IsHonest (A.tells source) → IsRead (A.tells source) (A.tells result.1) }
    ensures source_honest { (A.tells result.1).honest ≡ (A.tells source).honest }
    ensures target_honest { (B.tells result.2).honest ≡ (B.tells target).honest }
    ensures source_cause { Moved (is_source_fault result.0) (A.faults source, A.faults result.1) }
    ensures target_cause { Moved (is_target_fault result.0) (B.faults target, B.faults result.2) }
    ensures source_later { A.faults source ≤ A.faults result.1 }
    ensures target_later { B.faults target ≤ B.faults result.2 }
{
    match read_source(alloc, source) {
        Ok((office, source)) => {
            let count = u64::from(office.front());
            let (ended, target) = copy(alloc, office, target);
            (ended_upgrade(count, ended), source, target)
        }
        Err((fault, source)) => (UpgradeEnd::Source(fault), source, target),
    }
}

// How an upgrade ended by how its target was built.
fn ended_upgrade(count: u64, ended: Result<(), BuildFault>) -> UpgradeEnd
    ensures { result ≡ ended_upgrade_of count ended }
{
    match ended {
        Ok(()) => UpgradeEnd::Copied(count),
        Err(fault) => UpgradeEnd::Target(fault),
    }
}

/// Copies the filings of a journal of version 1, the source, into one of version 2 that is built in the target, each under
/// the plain stamp, and writes `copied` and their number. The whole source is read and judged before any call on the target,
/// and is never written.
///
/// The status is 0 where all was copied, 4 where the last line couldn't be written, 5 where a disk failed, 6 where the source
/// is none of version 1 or the target isn't unborn, 7 where the source is damaged or its list isn't legal, and 9 where there is
/// no memory. At each but 0 and 4 the last line of the text names the fault.
pub fn upgrade<A: Disk, B: Disk, K: Sink>(
    alloc: Global,
    source: A,
    target: B,
    out: &mut K,
) -> (u8, A, B)
    // All that an upgrade does, by how it ends: the list, the target at every moment, the counts, the last line and the status.
    ensures upgrades { Upgrades A.Disk B.Disk K.Sink
        (record { source = (A.faults source, A.faults result.1); target = (B.faults target, B.faults result.2); sink = (K.faults out.old, K.faults out.new) })
        source target result.2 out.old out.new result.0 }

    // The source is never written, and neither is a target that isn't unborn.
    ensures source_read { IsHonest (A.tells source) → IsRead (A.tells source) (A.tells result.1) }
    ensures untouched { IsHonest (B.tells target) → IsUnborn (B.tells target).reads ⊎ IsRead (B.tells target) (B.tells result.2) }

    // At every moment each image of the target is one of those that there were to begin with, or no office, or recovers the source's
    // whole list: a part of the list is never an office.
    ensures moments { (history : List Filing) → IsHonest (A.tells source) → RecoversOld (A.tells source).reads history → IsHonest (B.tells target)
        → EachMoment (B.tells target) (B.tells result.2) (λ file. (B.tells target).image file ⊎ NoneOrAll (under_plain history) file) }

    // At 0 each image of the target recovers the whole list, and its length was written.
    ensures copied { (history : List Filing) → result.0 ≡ 0 → IsHonest (A.tells source) → RecoversOld (A.tells source).reads history
        → IsHonest (B.tells target) → EachImage (B.tells result.2) (λ file. Recovers file (under_plain history)) }
    ensures told { (history : List Filing) → result.0 ≡ 0 → IsHonest (A.tells source) → RecoversOld (A.tells source).reads history
        → IsTrue (K.honest out.old) → K.text out.new ≡ K.text out.old ++ copied_line (length history) }

    // Where no count rose, an undamaged source of version 1 and an unborn target give 0, if there is memory.
    ensures complete { IsOldOffice (A.tells source) → IsHonest (B.tells target) → IsUnborn (B.tells target).reads
        → (Rose (A.faults source) (A.faults result.1) → ⊥) → (Rose (B.faults target) (B.faults result.2) → ⊥) → (Rose (K.faults out.old) (K.faults out.new) → ⊥)
        → (result.0 ≡ 0) ⊎ (result.0 ≡ 9) }

    ensures source_later { A.faults source ≤ A.faults result.1 }
    ensures target_later { B.faults target ≤ B.faults result.2 }
    ensures sink_later { K.faults out.old ≤ K.faults out.new }
    ensures source_honest { (A.tells result.1).honest ≡ (A.tells source).honest }
    ensures target_honest { (B.tells result.2).honest ≡ (B.tells target).honest }
    ensures sink_honest { K.honest out.new ≡ K.honest out.old }
{
    let (end, source, target) = read_and_copy(alloc, source, target);
    (end.tell(out), source, target)
}
