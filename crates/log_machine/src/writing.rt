//! A payload in a file that was made long enough for it.
ghost use Rattle.std.specs.Prelude.{◌≡◌, ◌+◌, ◌≤◌, ◌<◌, ◌^◌, ◌++◌, ◌∷◌, [], ℕ, List, true, false, length, OnOk, OnErr, IfErr};
ghost use Rattle.io_traits.specs.Faults.{Rose};
ghost use Rattle.io_traits.specs.DiskState.{IsHonest, EachMoment};
ghost use Rattle.log_journal.specs.Journal.{Keeps, MayKeep, IsDecided, HasUndecided, journal_disk, journal_count};
ghost use Rattle.log_journal.specs.Stands.{Payloads, IsPayload, BeforeOrWith, StandsFor};
ghost use Rattle.log_journal.specs.declared.header.Header.{Header};

use io_traits::Disk;
use log_journal::{Journal, PutError};

/// Puts a payload into a journal, and writes the one that may follow ahead, where it isn't empty. The file is made long
/// enough for both first; where that fails, the payload isn't kept, for good. It takes no memory.
pub(crate) fn lengthen_and_put<D: Disk>(
    journal: &mut Journal<D>,
    payload: &[u8],
    next: &[u8],
) -> Result<(), PutError>
    requires decided { IsDecided journal.old }
    requires payload { IsPayload payload.now }
    requires next { length next.now ≤ 8192 }
    requires room { journal_count journal.old < 2 ^ 32 }
    requires stands { IsHonest (D.tells (journal_disk journal.old))
        → (header : Header) × ((before : Payloads) × Keeps D.Disk header journal.old before) }
    ensures honest { (D.tells (journal_disk journal.new)).honest ≡ (D.tells (journal_disk journal.old)).honest }
    ensures kept { IsHonest (D.tells (journal_disk journal.old))
        → (header : Header) (before : Payloads) → Keeps D.Disk header journal.old before
        → OnOk result (Keeps D.Disk header journal.new (before ++ payload.now ∷ [])) }
    ensures before { IsHonest (D.tells (journal_disk journal.old))
        → (header : Header) (before : Payloads) → Keeps D.Disk header journal.old before
        → IfErr result (λ e. e ≡ PutError.DiskFault false → Keeps D.Disk header journal.new before) }
    ensures undecided { IsHonest (D.tells (journal_disk journal.old))
        → (header : Header) (before : Payloads) → Keeps D.Disk header journal.old before
        → IfErr result (λ e. e ≡ PutError.DiskFault true → MayKeep D.Disk header journal.new before payload.now) }
    ensures moments { IsHonest (D.tells (journal_disk journal.old))
        → (header : Header) (before : Payloads) → Keeps D.Disk header journal.old before
        → EachMoment (D.tells (journal_disk journal.old)) (D.tells (journal_disk journal.new)) (BeforeOrWith header before payload.now) }
    ensures not_put { IsHonest (D.tells (journal_disk journal.old))
        → (header : Header) (before : Payloads) → Keeps D.Disk header journal.old before
        → IfErr result (λ e. e ≡ PutError.DiskFault false
        → EachMoment (D.tells (journal_disk journal.old)) (D.tells (journal_disk journal.new)) (λ file. StandsFor header file before)) }
    ensures count { OnOk result (journal_count journal.new ≡ journal_count journal.old + 1) }
    ensures decided { OnOk result (IsDecided journal.new) }
    ensures count_err { OnErr result (journal_count journal.new ≡ journal_count journal.old) }
    ensures decided_err { IfErr result (λ e. e ≡ PutError.DiskFault false → IsDecided journal.new) }
    ensures undecided_err { IfErr result (λ e. e ≡ PutError.DiskFault true → HasUndecided journal.new) }
    ensures later { D.faults (journal_disk journal.old) ≤ D.faults (journal_disk journal.new) }
    ensures cause { OnErr result (Rose (D.faults (journal_disk journal.old)) (D.faults (journal_disk journal.new))) }
    ensures unmoved { OnOk result (D.faults (journal_disk journal.new) ≡ D.faults (journal_disk journal.old)) }
{
    if journal.lengthen(payload.len() + next.len()).is_err() {
        return Err(PutError::DiskFault { undecided: false });
    }
    journal.put_ahead(payload, next)
}
