// A journal is built in three steps, each on the disk before the next: the first byte as 0, all the rest, the first byte as 1.
ghost use Rattle.std.specs.Prelude.{◌≡◌, ◌⊎◌, ◌<◌, ◌≤◌, ◌^◌, length, map, IfOk, IfErr, OnOk, OnErr};
ghost use Rattle.std.specs.List.{AllByRecursion};
ghost use Rattle.io_traits.specs.Faults.{Rose};
ghost use Rattle.io_traits.specs.DiskState.{EachImage, EachMoment, IsHonest, IsQuiet, IsRead};
ghost use Rattle.log_journal.specs.Head.{IsBorn, IsForeign, IsOld};
ghost use Rattle.log_journal.specs.Stands.{IsUnborn};
ghost use Rattle.log_builds.specs.Built.{IsWhole, NoneOrWhole};
ghost use Rattle.log_builds.specs.Laid.{IsReady, IsShut};

use crate::Entries;
use crate::records::write_records;
use io_traits::{Disk, Failed, PayloadBuffer, sync_kept, write_kept};
use log_journal::{FoundError, Header, OpenError, recover};

// The least length of a file that may be a journal: a header and a gate.
const LEAST: u64 = 17;

// The disk again, if a journal may be built in its file.
fn unborn_disk<D: Disk>(disk: D, header: Header) -> Result<D, (FoundError, D)>
    ensures honest { IfOk result (λ d. (D.tells d).honest ≡ (D.tells disk).honest) }
    ensures honest_err { IfErr result (λ e. (D.tells e.1).honest ≡ (D.tells disk).honest) }
    ensures unborn { IsHonest (D.tells disk) → OnOk result (IsUnborn (D.tells disk).reads) }
    ensures exists { IsHonest (D.tells disk)
        → IfErr result (λ e. e.0 ≡ FoundError.Exists → IsBorn header (D.tells disk).reads ⊎ IsOld header (D.tells disk).reads) }
    ensures foreign { IsHonest (D.tells disk)
        → IfErr result (λ e. e.0 ≡ FoundError.NotJournal → IsForeign header (D.tells disk).reads) }
    ensures told { IsHonest (D.tells disk) → IfOk result (λ d. IsRead (D.tells disk) (D.tells d)) }
    ensures told_err { IsHonest (D.tells disk) → IfErr result (λ e. IsRead (D.tells disk) (D.tells e.1)) }
    ensures later { IfOk result (λ d. D.faults disk ≤ D.faults d) }
    ensures later_err { IfErr result (λ e. D.faults disk ≤ D.faults e.1) }
    ensures cause { IfErr result (λ e. e.0 ≡ FoundError.DiskFault → Rose (D.faults disk) (D.faults e.1)) }
    ensures unmoved { IfOk result (λ d. D.faults d ≡ D.faults disk) }
    ensures unmoved_err { IfErr result (λ e. (e.0 ≡ FoundError.DiskFault) ⊎ (D.faults e.1 ≡ D.faults disk)) }
{
    match recover(disk, header) {
        Ok(opening) => Err((FoundError::Exists, opening.into_disk())),
        Err((OpenError::OldVersion, disk)) => Err((FoundError::Exists, disk)),
        Err((OpenError::NotJournal, disk)) => Err((FoundError::NotJournal, disk)),
        Err((OpenError::DiskFault, disk)) => Err((FoundError::DiskFault, disk)),
        Err((OpenError::NoOffice, disk)) => Ok(disk),
        // Nothing of the records is read.
        Err((OpenError::Damaged(_), _)) => unreachable!(),
        Err((OpenError::NoMemory, _)) => unreachable!(),
    }
}

// The first step. A file of 17 bytes has a first byte that isn't 1, and a write over that one might leave 1 in front of a header.
fn shut<D: Disk>(disk: &mut D) -> Result<(), Failed>
    requires { IsHonest (D.tells disk.old) → IsUnborn (D.tells disk.old).reads }
    ensures honest { (D.tells disk.new).honest ≡ (D.tells disk.old).honest }
    ensures shut { IsHonest (D.tells disk.old) → OnOk result (EachImage (D.tells disk.new) IsShut) }
    ensures moments { IsHonest (D.tells disk.old)
        → EachMoment (D.tells disk.old) (D.tells disk.new) (λ file. (D.tells disk.old).image file ⊎ IsUnborn file) }
    ensures later { D.faults disk.old ≤ D.faults disk.new }
    ensures cause { OnErr result (Rose (D.faults disk.old) (D.faults disk.new)) }
    ensures unmoved { OnOk result (D.faults disk.new ≡ D.faults disk.old) }
{
    sync_kept(disk)?;
    if disk.len()? < LEAST {
        write_kept(disk, 0, &[0])
    } else {
        Ok(())
    }
}

// The second step.
fn lay<D: Disk, E: Entries>(
    disk: &mut D,
    header: Header,
    entries: &mut E,
    room: &mut PayloadBuffer,
) -> Result<(), Failed>
    requires few { length (E.left entries.old) < 2 ^ 32 }
    requires shut { IsHonest (D.tells disk.old) → EachImage (D.tells disk.old) IsShut }
    ensures honest { (D.tells disk.new).honest ≡ (D.tells disk.old).honest }
    ensures quiet { IsHonest (D.tells disk.old) → OnOk result (IsQuiet (D.tells disk.new)) }
    ensures ready { IsHonest (D.tells disk.old)
        → OnOk result (IsReady header (map E.spelling (E.left entries.old)) (D.tells disk.new).reads) }
    ensures in_range { IsHonest (D.tells disk.old) → OnOk result (AllByRecursion E.IsEntry (E.left entries.old)) }
    ensures moments { IsHonest (D.tells disk.old) → EachMoment (D.tells disk.old) (D.tells disk.new) IsShut }
    ensures later { D.faults disk.old ≤ D.faults disk.new }
    ensures cause { OnErr result (Rose (D.faults disk.old) (D.faults disk.new)) }
    ensures unmoved { OnOk result (D.faults disk.new ≡ D.faults disk.old) }
{
    let place = write_records(disk, header, entries, room)?;
    write_kept(disk, place, &[0])
}

// All three steps.
fn write_whole<D: Disk, E: Entries>(
    disk: &mut D,
    header: Header,
    entries: &mut E,
    room: &mut PayloadBuffer,
) -> Result<(), Failed>
    requires few { length (E.left entries.old) < 2 ^ 32 }
    requires unborn { IsHonest (D.tells disk.old) → IsUnborn (D.tells disk.old).reads }
    ensures honest { (D.tells disk.new).honest ≡ (D.tells disk.old).honest }
    ensures built { IsHonest (D.tells disk.old)
        → OnOk result (EachImage (D.tells disk.new) (IsWhole header E.spelling E.IsEntry (E.left entries.old))) }
    ensures moments { IsHonest (D.tells disk.old) → EachMoment (D.tells disk.old) (D.tells disk.new)
        (λ file. (D.tells disk.old).image file ⊎ NoneOrWhole header E.spelling E.IsEntry (E.left entries.old) file) }
    ensures later { D.faults disk.old ≤ D.faults disk.new }
    ensures cause { OnErr result (Rose (D.faults disk.old) (D.faults disk.new)) }
    ensures unmoved { OnOk result (D.faults disk.new ≡ D.faults disk.old) }
{
    shut(disk)?;
    lay(disk, header, entries, room)?;
    write_kept(disk, 0, &[1])
}

/// Builds a journal with this header and of the entries that are left, in a file of fewer than 17 bytes, whatever they are, or of 17
/// bytes whose first isn't 1. It takes four syncs, however many entries there are, and no memory.
pub fn build<D: Disk, E: Entries>(
    disk: D,
    header: Header,
    entries: &mut E,
    room: &mut PayloadBuffer,
) -> Result<D, (FoundError, D)>
    requires few { length (E.left entries.old) < 2 ^ 32 }

    ensures honest { IfOk result (λ d. (D.tells d).honest ≡ (D.tells disk).honest) }
    ensures honest_err { IfErr result (λ e. (D.tells e.1).honest ≡ (D.tells disk).honest) }

    // Each answer comes by the bytes. A refusal by them writes nothing.
    ensures unborn { IsHonest (D.tells disk) → OnOk result (IsUnborn (D.tells disk).reads) }
    ensures exists { IsHonest (D.tells disk)
        → IfErr result (λ e. e.0 ≡ FoundError.Exists → (IsBorn header (D.tells disk).reads ⊎ IsOld header (D.tells disk).reads)
        × IsRead (D.tells disk) (D.tells e.1)) }
    ensures foreign { IsHonest (D.tells disk)
        → IfErr result (λ e. e.0 ≡ FoundError.NotJournal → IsForeign header (D.tells disk).reads × IsRead (D.tells disk) (D.tells e.1)) }

    // Only a file in which a journal may be built is written, whatever the answer.
    ensures untouched { IsHonest (D.tells disk)
        → IfErr result (λ e. IsUnborn (D.tells disk).reads ⊎ IsRead (D.tells disk) (D.tells e.1)) }

    // Each image has all entries.
    ensures built { IsHonest (D.tells disk)
        → IfOk result (λ d. EachImage (D.tells d) (IsWhole header E.spelling E.IsEntry (E.left entries.old))) }

    // At every moment every image is one of those that there were as the call began, or no journal, or has all entries.
    ensures moments { IsHonest (D.tells disk) → IfOk result (λ d. EachMoment (D.tells disk) (D.tells d)
        (λ file. (D.tells disk).image file ⊎ NoneOrWhole header E.spelling E.IsEntry (E.left entries.old) file)) }
    ensures moments_err { IsHonest (D.tells disk) → IfErr result (λ e. EachMoment (D.tells disk) (D.tells e.1)
        (λ file. (D.tells disk).image file ⊎ NoneOrWhole header E.spelling E.IsEntry (E.left entries.old) file)) }

    ensures later { IfOk result (λ d. D.faults disk ≤ D.faults d) }
    ensures later_err { IfErr result (λ e. D.faults disk ≤ D.faults e.1) }
    ensures cause { IfErr result (λ e. e.0 ≡ FoundError.DiskFault → Rose (D.faults disk) (D.faults e.1)) }

    // Every other answer comes without a fault.
    ensures unmoved { IfOk result (λ d. D.faults d ≡ D.faults disk) }
    ensures unmoved_err { IfErr result (λ e. (e.0 ≡ FoundError.DiskFault) ⊎ (D.faults e.1 ≡ D.faults disk)) }
{
    let mut disk = unborn_disk(disk, header)?;
    match write_whole(&mut disk, header, entries, room) {
        Ok(()) => Ok(disk),
        Err(Failed) => Err((FoundError::DiskFault, disk)),
    }
}
