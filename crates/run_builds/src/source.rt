// A journal's list is read whole, and judged.
ghost use Rattle.std.specs.Prelude.{◌≡◌, ◌⊎◌, ◌≤◌, IfOk, IfErr};
ghost use Rattle.io_traits.specs.Faults.{Rose};
ghost use Rattle.io_traits.specs.DiskState.{IsHonest, IsRead};
ghost use Rattle.log_journal.specs.Head.{IsForeign};
ghost use Rattle.office_log.specs.Scheme.{old_header};
ghost use Rattle.office_history.specs.Answer.{IsLegal};
ghost use Rattle.office_log.specs.Recovers.{Recovers};
ghost use Rattle.log_stamps.specs.Entries.{entries};
ghost use Rattle.run_builds.specs.Amendments.{RefusesList};
ghost use Rattle.run_builds.specs.Upgrades.{RecoversOld, Refuses};

use crate::ending::SourceFault;
use io_traits::Disk;
use log_journal::OpenError;
use log_machine::StateMachine;
use office_log::{OfficeMachine, StampedOfficeMachine, recover_old};
use std::alloc::Global;

// What a file is that is no journal of version 1: one of version 2, or none.
fn look_anew<D: Disk>(disk: D) -> (SourceFault, D)
    ensures honest { (D.tells result.1).honest ≡ (D.tells disk).honest }
    ensures told { IsHonest (D.tells disk) → IsRead (D.tells disk) (D.tells result.1) }
    ensures refuses { IsHonest (D.tells disk) → IsForeign old_header (D.tells disk).reads → Refuses (D.tells disk).reads result.0 }
    ensures later { D.faults disk ≤ D.faults result.1 }
    ensures cause { result.0 ≡ SourceFault.DiskFault → Rose (D.faults disk) (D.faults result.1) }
    ensures unmoved { (result.0 ≡ SourceFault.DiskFault) ⊎ (D.faults result.1 ≡ D.faults disk) }
{
    match log_journal::recover(disk, StampedOfficeMachine::header()) {
        Ok(opening) => (SourceFault::NewVersion, opening.into_disk()),
        Err((OpenError::DiskFault, disk)) => (SourceFault::DiskFault, disk),
        Err((_, disk)) => (SourceFault::NotJournal, disk),
    }
}

/// Reads the whole list of a journal of version 1, each filing judged. It writes nothing.
pub(crate) fn read_source<D: Disk>(
    alloc: Global,
    disk: D,
) -> Result<(OfficeMachine, D), (SourceFault, D)>
    ensures honest { IfOk result (λ r. (D.tells r.1).honest ≡ (D.tells disk).honest) }
    ensures honest_err { IfErr result (λ e. (D.tells e.1).honest ≡ (D.tells disk).honest) }
    ensures recovers { IsHonest (D.tells disk)
        → IfOk result (λ r. RecoversOld (D.tells disk).reads (⟦<OfficeMachine as StateMachine>⟧.history r.0)) }
    ensures legal { IfOk result (λ r. IsLegal (⟦<OfficeMachine as StateMachine>⟧.history r.0)) }
    ensures refuses { IsHonest (D.tells disk) → IfErr result (λ e. Refuses (D.tells disk).reads e.0) }
    ensures told { IsHonest (D.tells disk) → IfOk result (λ r. IsRead (D.tells disk) (D.tells r.1)) }
    ensures told_err { IsHonest (D.tells disk) → IfErr result (λ e. IsRead (D.tells disk) (D.tells e.1)) }
    ensures later { IfOk result (λ r. D.faults disk ≤ D.faults r.1) }
    ensures later_err { IfErr result (λ e. D.faults disk ≤ D.faults e.1) }
    ensures cause { IfErr result (λ e. e.0 ≡ SourceFault.DiskFault → Rose (D.faults disk) (D.faults e.1)) }
    ensures unmoved { IfOk result (λ r. D.faults r.1 ≡ D.faults disk) }
    ensures unmoved_err { IfErr result (λ e. (e.0 ≡ SourceFault.DiskFault) ⊎ (D.faults e.1 ≡ D.faults disk)) }
{
    match recover_old(alloc, disk) {
        Ok((office, disk)) => Ok((office, disk)),
        Err((OpenError::NoOffice, disk)) => Err((SourceFault::NoOffice, disk)),
        Err((OpenError::NotJournal | OpenError::OldVersion, disk)) => Err(look_anew(disk)),
        Err((OpenError::Damaged(place), disk)) => Err((SourceFault::Damaged(place), disk)),
        Err((OpenError::DiskFault, disk)) => Err((SourceFault::DiskFault, disk)),
        Err((OpenError::NoMemory, disk)) => Err((SourceFault::NoMemory, disk)),
    }
}

/// Reads the whole list of a journal of version 2, each filing judged. It writes nothing.
pub(crate) fn read_list<D: Disk>(
    alloc: Global,
    disk: D,
) -> Result<(StampedOfficeMachine, D), (SourceFault, D)>
    ensures honest { IfOk result (λ r. (D.tells r.1).honest ≡ (D.tells disk).honest) }
    ensures honest_err { IfErr result (λ e. (D.tells e.1).honest ≡ (D.tells disk).honest) }
    ensures recovers { IsHonest (D.tells disk)
        → IfOk result (λ r. Recovers (D.tells disk).reads (⟦<StampedOfficeMachine as StateMachine>⟧.history r.0)) }
    ensures legal { IfOk result (λ r. IsLegal (entries (⟦<StampedOfficeMachine as StateMachine>⟧.history r.0))) }
    ensures refuses { IsHonest (D.tells disk) → IfErr result (λ e. RefusesList (D.tells disk).reads e.0) }
    ensures told { IsHonest (D.tells disk) → IfOk result (λ r. IsRead (D.tells disk) (D.tells r.1)) }
    ensures told_err { IsHonest (D.tells disk) → IfErr result (λ e. IsRead (D.tells disk) (D.tells e.1)) }
    ensures later { IfOk result (λ r. D.faults disk ≤ D.faults r.1) }
    ensures later_err { IfErr result (λ e. D.faults disk ≤ D.faults e.1) }
    ensures cause { IfErr result (λ e. e.0 ≡ SourceFault.DiskFault → Rose (D.faults disk) (D.faults e.1)) }
    ensures unmoved { IfOk result (λ r. D.faults r.1 ≡ D.faults disk) }
    ensures unmoved_err { IfErr result (λ e. (e.0 ≡ SourceFault.DiskFault) ⊎ (D.faults e.1 ≡ D.faults disk)) }
{
    match log_machine::read::<D, StampedOfficeMachine>(alloc, disk) {
        Ok((machine, disk)) => Ok((machine, disk)),
        Err((OpenError::NoOffice, disk)) => Err((SourceFault::NoOffice, disk)),
        Err((OpenError::NotJournal, disk)) => Err((SourceFault::NotJournal, disk)),
        Err((OpenError::OldVersion, disk)) => Err((SourceFault::OldVersion, disk)),
        Err((OpenError::Damaged(place), disk)) => Err((SourceFault::Damaged(place), disk)),
        Err((OpenError::DiskFault, disk)) => Err((SourceFault::DiskFault, disk)),
        Err((OpenError::NoMemory, disk)) => Err((SourceFault::NoMemory, disk)),
    }
}
