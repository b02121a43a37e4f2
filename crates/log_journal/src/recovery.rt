// The front of a file says whether a journal stands there.
ghost use Rattle.std.specs.Prelude.{◌≡◌, ◌⊎◌, ◌≤◌, [], None, OnOk, IfOk, IfErr};
ghost use Rattle.io_traits.specs.Faults.{Rose};
ghost use Rattle.io_traits.specs.DiskState.{IsHonest, IsRead};
ghost use Rattle.log_journal.specs.Stands.{IsUnborn};
ghost use Rattle.log_journal.specs.Head.{IsBorn, IsForeign, IsOld};
ghost use Rattle.log_journal.specs.Opening.{HasGiven, IsHeadRefusal, opening_disk, opening_count, opening_refusal};

use crate::head::{FileHead, look};
use crate::{Header, OpenError, Opening};
use io_traits::{Disk, Failed};

/// Begins to read a journal with this header. It writes nothing, and takes no memory.
pub fn recover<D: Disk>(disk: D, header: Header) -> Result<Opening<D>, (OpenError, D)>
    ensures honest { IfOk result (λ opening. (D.tells (opening_disk opening)).honest ≡ (D.tells disk).honest) }
    ensures honest_err { IfErr result (λ e. (D.tells e.1).honest ≡ (D.tells disk).honest) }

    // Each answer comes by the bytes.
    ensures born { IsHonest (D.tells disk) → OnOk result (IsBorn header (D.tells disk).reads) }
    ensures begun { IsHonest (D.tells disk) → IfOk result (λ opening. HasGiven D.Disk header opening []) }
    ensures unborn { IsHonest (D.tells disk)
        → IfErr result (λ e. e.0 ≡ OpenError.NoOffice → IsUnborn (D.tells disk).reads) }
    ensures foreign { IsHonest (D.tells disk)
        → IfErr result (λ e. e.0 ≡ OpenError.NotJournal → IsForeign header (D.tells disk).reads) }
    ensures old { IsHonest (D.tells disk)
        → IfErr result (λ e. e.0 ≡ OpenError.OldVersion → IsOld header (D.tells disk).reads) }

    // Nothing is written.
    ensures told { IsHonest (D.tells disk) → IfOk result (λ opening. IsRead (D.tells disk) (D.tells (opening_disk opening))) }
    ensures told_err { IsHonest (D.tells disk) → IfErr result (λ e. IsRead (D.tells disk) (D.tells e.1)) }

    ensures refusals { IfErr result (λ e. IsHeadRefusal e.0) }
    ensures count { IfOk result (λ opening. opening_count opening ≡ 0) }
    ensures refusal { IfOk result (λ opening. opening_refusal opening ≡ None) }
    ensures later { IfOk result (λ opening. D.faults disk ≤ D.faults (opening_disk opening)) }
    ensures later_err { IfErr result (λ e. D.faults disk ≤ D.faults e.1) }
    ensures cause { IfErr result (λ e. e.0 ≡ OpenError.DiskFault → Rose (D.faults disk) (D.faults e.1)) }

    // Every other answer comes without a fault.
    ensures unmoved { IfOk result (λ opening. D.faults (opening_disk opening) ≡ D.faults disk) }
    ensures unmoved_err { IfErr result (λ e. (e.0 ≡ OpenError.DiskFault) ⊎ (D.faults e.1 ≡ D.faults disk)) }
{
    let mut disk = disk;
    match look(&mut disk, header) {
        Ok(FileHead::Born) => Ok(Opening::new(disk)),
        Ok(FileHead::Short) => Err((OpenError::NoOffice, disk)),
        Ok(FileHead::Unfinished) => Err((OpenError::NoOffice, disk)),
        Ok(FileHead::Old) => Err((OpenError::OldVersion, disk)),
        Ok(FileHead::Foreign) => Err((OpenError::NotJournal, disk)),
        Err(Failed) => Err((OpenError::DiskFault, disk)),
    }
}
