// What stands at the front of a file.
ghost use Rattle.std.specs.Prelude.{◌≡◌, ◌≤◌, length, take, IfOk, OnOk, OnErr};
ghost use Rattle.std.specs.Bool.{Decides};
ghost use Rattle.io_traits.specs.Faults.{Rose};
ghost use Rattle.io_traits.specs.DiskState.{IsHonest, IsRead};
ghost use Rattle.log_journal.specs.Head.{HasHead, StartsOld};
ghost use Rattle.log_journal.specs.Header.{header_bytes};

use crate::Header;
use io_traits::{Disk, Failed};

/// What the front of a file says.
#[derive(Clone, Copy, PartialEq, Eq)]
pub(crate) enum FileHead {
    /// Fewer than 17 bytes: nothing was founded.
    Short,
    /// 17 bytes whose first isn't 1: a founding that didn't end.
    Unfinished,
    /// A journal with this header.
    Born,
    /// A journal of the version that the header names as the one before.
    Old,
    /// Something else.
    Foreign,
}

// Whether bytes begin with this header.
fn has_header(front: &[u8], header: Header) -> bool
    requires long { 16 ≤ length front.now }
    ensures { Decides result (take 16 front.now ≡ header_bytes header) }
{
    let empty = header.empty_file();
    front[..16] == empty[..16]
}

// Whether bytes begin with the version before.
fn has_old_header(front: &[u8], header: Header) -> bool
    requires long { 16 ≤ length front.now }
    ensures { Decides result (StartsOld header front.now) }
{
    match header.old {
        Some(version) => {
            let mut before = header;
            before.version = version;
            has_header(front, before)
        }
        None => false,
    }
}

// What the first 18 bytes of a file say, or all of them where there are fewer.
fn head_of(front: &[u8], header: Header) -> FileHead
    ensures { HasHead header front.now result }
{
    if front.len() < 17 {
        FileHead::Short
    } else if front[0] != 1 {
        if front.len() == 17 {
            FileHead::Unfinished
        } else {
            FileHead::Foreign
        }
    } else if has_header(front, header) {
        FileHead::Born
    } else if has_old_header(front, header) {
        FileHead::Old
    } else {
        FileHead::Foreign
    }
}

// Reads the front of a file.
pub(crate) fn look<D: Disk>(disk: &mut D, header: Header) -> Result<FileHead, Failed>
    ensures honest { (D.tells disk.new).honest ≡ (D.tells disk.old).honest }
    ensures told { IsHonest (D.tells disk.old) → IsRead (D.tells disk.old) (D.tells disk.new) }
    ensures head { IsHonest (D.tells disk.old) → IfOk result (λ head. HasHead header (D.tells disk.old).reads head) }
    ensures later { D.faults disk.old ≤ D.faults disk.new }
    ensures cause { OnErr result (Rose (D.faults disk.old) (D.faults disk.new)) }
    ensures unmoved { OnOk result (D.faults disk.new ≡ D.faults disk.old) }
{
    let mut front = [0; 18];
    let n = disk.read_at(0, &mut front)?;
    Ok(head_of(&front[..n], header))
}
