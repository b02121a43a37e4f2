// A journal is founded in three steps, each on the disk before the next: the first byte as 0, the rest, the first byte as 1.
ghost use Rattle.std.specs.Prelude.{◌≡◌, ◌⊎◌, ◌<◌, ◌≤◌, ◌++◌, [], ◌∷◌, length, OnOk, OnErr, IfOk, IfErr};
ghost use Rattle.io_traits.specs.Faults.{Rose};
ghost use Rattle.io_traits.specs.DiskState.{IsHonest, EachMoment, EachImage, IsKept, IsQuiet, IsRead};
ghost use Rattle.log_journal.specs.Header.{header_bytes};
ghost use Rattle.log_journal.specs.Stands.{IsUnborn};
ghost use Rattle.log_journal.specs.Head.{HasHead, IsBorn, IsForeign, IsOld};
ghost use Rattle.log_journal.specs.Founded.{UnbornOrEmpty, IsStarted};
ghost use Rattle.log_journal.specs.Journal.{Keeps, IsDecided, journal_disk, journal_count};

use crate::head::{FileHead, look};
use crate::{Header, Journal};
use io_traits::{Disk, Failed, sync_kept, write_kept};

/// Why no journal was founded.
#[derive(Clone, Copy, PartialEq, Eq)]
pub enum FoundError {
    /// This header stands there already, or the version that it names as the one before.
    Exists,
    /// The file is neither a journal of one of these versions nor a file in which one may be founded.
    NotJournal,
    /// The disk refused a call.
    DiskFault,
}

// The second and the third step.
fn lay<D: Disk>(disk: &mut D, header: Header) -> Result<(), Failed>
    requires { IsHonest (D.tells disk.old) → IsStarted (D.tells disk.old).reads }
    ensures honest { (D.tells disk.new).honest ≡ (D.tells disk.old).honest }
    ensures done { IsHonest (D.tells disk.old) → OnOk result (IsKept (header_bytes header ++ 0 ∷ []) (D.tells disk.new)) }
    ensures moments { IsHonest (D.tells disk.old) → IsQuiet (D.tells disk.old)
        → EachMoment (D.tells disk.old) (D.tells disk.new) (UnbornOrEmpty header) }
    ensures later { D.faults disk.old ≤ D.faults disk.new }
    ensures cause { OnErr result (Rose (D.faults disk.old) (D.faults disk.new)) }
    ensures unmoved { OnOk result (D.faults disk.new ≡ D.faults disk.old) }
{
    let empty = header.empty_file();
    write_kept(disk, 1, &empty[1..])?;
    write_kept(disk, 0, &[1])
}

// All three steps.
fn start<D: Disk>(disk: &mut D, header: Header) -> Result<(), Failed>
    requires { IsHonest (D.tells disk.old) → length (D.tells disk.old).reads < 17 }
    ensures honest { (D.tells disk.new).honest ≡ (D.tells disk.old).honest }
    ensures done { IsHonest (D.tells disk.old) → OnOk result (IsKept (header_bytes header ++ 0 ∷ []) (D.tells disk.new)) }
    ensures moments { IsHonest (D.tells disk.old) → IsQuiet (D.tells disk.old)
        → EachMoment (D.tells disk.old) (D.tells disk.new) (UnbornOrEmpty header) }
    ensures later { D.faults disk.old ≤ D.faults disk.new }
    ensures cause { OnErr result (Rose (D.faults disk.old) (D.faults disk.new)) }
    ensures unmoved { OnOk result (D.faults disk.new ≡ D.faults disk.old) }
{
    write_kept(disk, 0, &[0])?;
    lay(disk, header)
}

// The steps that a file without a journal lacks.
fn lay_from<D: Disk>(disk: &mut D, header: Header, head: FileHead) -> Result<(), Failed>
    requires { IsHonest (D.tells disk.old)
        → HasHead header (D.tells disk.old).reads head × ((head ≡ FileHead.Short) ⊎ (head ≡ FileHead.Unfinished)) }
    ensures honest { (D.tells disk.new).honest ≡ (D.tells disk.old).honest }
    ensures done { IsHonest (D.tells disk.old) → OnOk result (IsKept (header_bytes header ++ 0 ∷ []) (D.tells disk.new)) }
    ensures moments { IsHonest (D.tells disk.old) → IsQuiet (D.tells disk.old)
        → EachMoment (D.tells disk.old) (D.tells disk.new) (UnbornOrEmpty header) }
    ensures later { D.faults disk.old ≤ D.faults disk.new }
    ensures cause { OnErr result (Rose (D.faults disk.old) (D.faults disk.new)) }
    ensures unmoved { OnOk result (D.faults disk.new ≡ D.faults disk.old) }
{
    match head {
        FileHead::Short => start(disk, header),
        _ => lay(disk, header),
    }
}

// Waits until what a read gives is on the disk, since an earlier founding may have failed in any step, and goes on.
fn begin<D: Disk>(disk: &mut D, header: Header, head: FileHead) -> Result<(), Failed>
    requires { IsHonest (D.tells disk.old)
        → HasHead header (D.tells disk.old).reads head × ((head ≡ FileHead.Short) ⊎ (head ≡ FileHead.Unfinished)) }
    ensures honest { (D.tells disk.new).honest ≡ (D.tells disk.old).honest }
    ensures done { IsHonest (D.tells disk.old) → OnOk result (IsKept (header_bytes header ++ 0 ∷ []) (D.tells disk.new)) }
    ensures moments { IsHonest (D.tells disk.old) → EachImage (D.tells disk.old) (UnbornOrEmpty header)
        → EachMoment (D.tells disk.old) (D.tells disk.new) (UnbornOrEmpty header) }
    ensures later { D.faults disk.old ≤ D.faults disk.new }
    ensures cause { OnErr result (Rose (D.faults disk.old) (D.faults disk.new)) }
    ensures unmoved { OnOk result (D.faults disk.new ≡ D.faults disk.old) }
{
    sync_kept(disk)?;
    lay_from(disk, header, head)
}

/// Founds a journal with this header and without payloads, in a file of fewer than 17 bytes, whatever they are, or of 17
/// bytes whose first isn't 1. It takes no memory.
pub fn found<D: Disk>(disk: D, header: Header) -> Result<Journal<D>, (FoundError, D)>
    ensures honest { IfOk result (λ journal. (D.tells (journal_disk journal)).honest ≡ (D.tells disk).honest) }
    ensures honest_err { IfErr result (λ e. (D.tells e.1).honest ≡ (D.tells disk).honest) }

    // Each answer comes by the bytes. A refusal by them writes nothing.
    ensures unborn { IsHonest (D.tells disk) → OnOk result (IsUnborn (D.tells disk).reads) }
    ensures exists { IsHonest (D.tells disk)
        → IfErr result (λ e. e.0 ≡ FoundError.Exists → (IsBorn header (D.tells disk).reads ⊎ IsOld header (D.tells disk).reads)
        × IsRead (D.tells disk) (D.tells e.1)) }
    ensures foreign { IsHonest (D.tells disk)
        → IfErr result (λ e. e.0 ≡ FoundError.NotJournal → IsForeign header (D.tells disk).reads × IsRead (D.tells disk) (D.tells e.1)) }

    // Only a file in which a journal may be founded is written, whatever the answer.
    ensures untouched { IsHonest (D.tells disk)
        → IfErr result (λ e. IsUnborn (D.tells disk).reads ⊎ IsRead (D.tells disk) (D.tells e.1)) }

    ensures kept { IsHonest (D.tells disk) → IfOk result (λ journal. Keeps D.Disk header journal []) }
    ensures bytes { IsHonest (D.tells disk) → IfOk result (λ journal. (D.tells (journal_disk journal)).reads ≡ header_bytes header ++ 0 ∷ []) }
    ensures quiet { IsHonest (D.tells disk) → IfOk result (λ journal. IsQuiet (D.tells (journal_disk journal))) }

    // At every moment every image is unborn or stands for no payloads, where each one is or does as the call begins.
    ensures moments { IsHonest (D.tells disk) → EachImage (D.tells disk) (UnbornOrEmpty header)
        → IfOk result (λ journal. EachMoment (D.tells disk) (D.tells (journal_disk journal)) (UnbornOrEmpty header)) }
    ensures moments_err { IsHonest (D.tells disk) → EachImage (D.tells disk) (UnbornOrEmpty header)
        → IfErr result (λ e. EachMoment (D.tells disk) (D.tells e.1) (UnbornOrEmpty header)) }

    ensures count { IfOk result (λ journal. journal_count journal ≡ 0) }
    ensures decided { IfOk result (λ journal. IsDecided journal) }
    ensures later { IfOk result (λ journal. D.faults disk ≤ D.faults (journal_disk journal)) }
    ensures later_err { IfErr result (λ e. D.faults disk ≤ D.faults e.1) }
    ensures cause { IfErr result (λ e. e.0 ≡ FoundError.DiskFault → Rose (D.faults disk) (D.faults e.1)) }

    // Every other answer comes without a fault.
    ensures unmoved { IfOk result (λ journal. D.faults (journal_disk journal) ≡ D.faults disk) }
    ensures unmoved_err { IfErr result (λ e. (e.0 ≡ FoundError.DiskFault) ⊎ (D.faults e.1 ≡ D.faults disk)) }
{
    let mut disk = disk;
    let head = match look(&mut disk, header) {
        Ok(head) => head,
        Err(Failed) => return Err((FoundError::DiskFault, disk)),
    };
    match head {
        FileHead::Born | FileHead::Old => return Err((FoundError::Exists, disk)),
        FileHead::Foreign => return Err((FoundError::NotJournal, disk)),
        FileHead::Short | FileHead::Unfinished => {}
    }
    match begin(&mut disk, header, head) {
        Ok(()) => Ok(Journal::at(disk, 16, 0)),
        Err(Failed) => Err((FoundError::DiskFault, disk)),
    }
}
