// The office of a journal of version 1.
ghost use Rattle.std.specs.Prelude.{◌≡◌, ◌⊎◌, ◌≤◌, ℕ, List, IfOk, IfErr};
ghost use Rattle.io_traits.specs.Faults.{Rose};
ghost use Rattle.aid_filings.specs.declared.filing.Filing.{Filing};
ghost use Rattle.io_traits.specs.DiskState.{IsHonest, IsRead};
ghost use Rattle.log_journal.specs.Head.{IsBorn, IsForeign};
ghost use Rattle.log_journal.specs.Stands.{IsUnborn};
ghost use Rattle.log_machine.specs.Faulty.{IsFaultyAt};
ghost use Rattle.log_machine.specs.Recovers.{Recovers};
ghost use Rattle.office_log.specs.Scheme.{old_header, filing_scheme};
ghost use Rattle.office_history.specs.Answer.{IsLegal};

use crate::OfficeMachine;
use io_traits::Disk;
use log_machine::{OpenError, StateMachine};
use std::alloc::Global;

/// Reads the office of a journal of version 1 whole, each filing judged, and writes nothing. A journal of version 2 is
/// `NotJournal` here.
pub fn recover_old<D: Disk>(alloc: Global, disk: D) -> Result<(OfficeMachine, D), (OpenError, D)>
    ensures honest { IfOk result (λ r. (D.tells r.1).honest ≡ (D.tells disk).honest) }
    ensures honest_err { IfErr result (λ e. (D.tells e.1).honest ≡ (D.tells disk).honest) }

    // The office is what the bytes stand for.
    ensures recovers { IsHonest (D.tells disk)
        → IfOk result (λ r. Recovers filing_scheme (D.tells disk).reads (⟦<OfficeMachine as StateMachine>⟧.history r.0)) }
    ensures legal { IfOk result (λ r. IsLegal (⟦<OfficeMachine as StateMachine>⟧.history r.0)) }

    // Each refusal but for the disk and for memory comes by the bytes. No version is older.
    ensures no_office { IsHonest (D.tells disk)
        → IfErr result (λ e. e.0 ≡ OpenError.NoOffice → IsUnborn (D.tells disk).reads) }
    ensures foreign { IsHonest (D.tells disk)
        → IfErr result (λ e. e.0 ≡ OpenError.NotJournal → IsForeign old_header (D.tells disk).reads) }
    ensures oldest { IsHonest (D.tells disk) → IfErr result (λ e. e.0 ≡ OpenError.OldVersion → ⊥) }
    ensures damaged { IsHonest (D.tells disk)
        → IfErr result (λ e. (place : ℕ) → e.0 ≡ OpenError.Damaged place
        → IsBorn old_header (D.tells disk).reads × IsFaultyAt filing_scheme (D.tells disk).reads place) }
    ensures complete { IsHonest (D.tells disk) → (history : List Filing) → Recovers filing_scheme (D.tells disk).reads history
        → IfErr result (λ e. (e.0 ≡ OpenError.NoMemory) ⊎ (e.0 ≡ OpenError.DiskFault)) }

    // Nothing is written, whatever the answer.
    ensures told { IsHonest (D.tells disk) → IfOk result (λ r. IsRead (D.tells disk) (D.tells r.1)) }
    ensures told_err { IsHonest (D.tells disk) → IfErr result (λ e. IsRead (D.tells disk) (D.tells e.1)) }

    ensures later { IfOk result (λ r. D.faults disk ≤ D.faults r.1) }
    ensures later_err { IfErr result (λ e. D.faults disk ≤ D.faults e.1) }
    ensures cause { IfErr result (λ e. e.0 ≡ OpenError.DiskFault → Rose (D.faults disk) (D.faults e.1)) }

    // Every other answer comes without a fault.
    ensures unmoved { IfOk result (λ r. D.faults r.1 ≡ D.faults disk) }
    ensures unmoved_err { IfErr result (λ e. (e.0 ≡ OpenError.DiskFault) ⊎ (D.faults e.1 ≡ D.faults disk)) }
{
    log_machine::read(alloc, disk)
}
