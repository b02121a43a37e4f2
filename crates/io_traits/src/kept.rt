// Calls with a sync behind them.
ghost use Rattle.std.specs.Prelude.{◌≡◌, ◌≤◌, ℕ, length, take, OnOk, OnErr};
ghost use Rattle.io_traits.specs.Faults.{Rose};
ghost use Rattle.io_traits.specs.DiskState.{IsHonest, IsKept, IsKeptWrite, IsKeptCut, IsKeptSync, overwrite};

use crate::{Disk, Failed};

/// Waits until a crash leaves what a read gives.
pub fn sync_kept<D: Disk>(disk: &mut D) -> Result<(), Failed>
    ensures honest { (D.tells disk.new).honest ≡ (D.tells disk.old).honest }
    ensures told { IsHonest (D.tells disk.old) → IsKeptSync (D.tells disk.old) (D.tells disk.new) }
    ensures done { IsHonest (D.tells disk.old)
        → OnOk result (IsKept (D.tells disk.old).reads (D.tells disk.new)) }
    ensures later { D.faults disk.old ≤ D.faults disk.new }
    ensures cause { OnErr result (Rose (D.faults disk.old) (D.faults disk.new)) }
    ensures unmoved { OnOk result (D.faults disk.new ≡ D.faults disk.old) }
{
    disk.sync()
}

/// Writes, and waits until a crash leaves what was written.
pub fn write_kept<D: Disk>(disk: &mut D, at: u64, bytes: &[u8]) -> Result<(), Failed>
    requires { IsHonest (D.tells disk.old) → at ≤ length (D.tells disk.old).reads }
    ensures honest { (D.tells disk.new).honest ≡ (D.tells disk.old).honest }
    ensures told { IsHonest (D.tells disk.old)
        → IsKeptWrite at (length bytes.now) (D.tells disk.old) (D.tells disk.new) }
    ensures done { IsHonest (D.tells disk.old)
        → OnOk result (IsKept (overwrite at bytes.now (D.tells disk.old).reads) (D.tells disk.new)) }
    ensures later { D.faults disk.old ≤ D.faults disk.new }
    ensures cause { OnErr result (Rose (D.faults disk.old) (D.faults disk.new)) }
    ensures unmoved { OnOk result (D.faults disk.new ≡ D.faults disk.old) }
{
    disk.write_at(at, bytes)?;
    disk.sync()
}

/// Cuts off what stands behind a place, where anything does, and waits until a crash leaves what is left.
pub fn trim<D: Disk>(disk: &mut D, end: u64) -> Result<(), Failed>
    requires { IsHonest (D.tells disk.old) → end ≤ length (D.tells disk.old).reads }
    ensures honest { (D.tells disk.new).honest ≡ (D.tells disk.old).honest }
    ensures told { IsHonest (D.tells disk.old)
        → IsKeptCut end (D.tells disk.old) (D.tells disk.new) }
    ensures done { IsHonest (D.tells disk.old)
        → OnOk result (IsKept (take end (D.tells disk.old).reads) (D.tells disk.new)) }
    ensures later { D.faults disk.old ≤ D.faults disk.new }
    ensures cause { OnErr result (Rose (D.faults disk.old) (D.faults disk.new)) }
    ensures unmoved { OnOk result (D.faults disk.new ≡ D.faults disk.old) }
{
    let len = disk.len()?;
    if end < len {
        cut_kept(disk, end)
    } else {
        disk.sync()
    }
}

/// Cuts, and waits until a crash leaves what was cut.
pub fn cut_kept<D: Disk>(disk: &mut D, len: u64) -> Result<(), Failed>
    requires { IsHonest (D.tells disk.old) → len ≤ length (D.tells disk.old).reads }
    ensures honest { (D.tells disk.new).honest ≡ (D.tells disk.old).honest }
    ensures told { IsHonest (D.tells disk.old)
        → IsKeptCut len (D.tells disk.old) (D.tells disk.new) }
    ensures done { IsHonest (D.tells disk.old)
        → OnOk result (IsKept (take len (D.tells disk.old).reads) (D.tells disk.new)) }
    ensures later { D.faults disk.old ≤ D.faults disk.new }
    ensures cause { OnErr result (Rose (D.faults disk.old) (D.faults disk.new)) }
    ensures unmoved { OnOk result (D.faults disk.new ≡ D.faults disk.old) }
{
    disk.cut(len)?;
    disk.sync()
}
