// The calls of a disk. Only an honest disk tells what a read gives and what a crash may leave.
ghost use Rattle.std.specs.Prelude.{◌≡◌, ◌<◌, ◌≤◌, ◌^◌, ℕ, length, take, IfOk, OnOk, OnErr, List};
ghost use Rattle.io_traits.specs.Faults.{Rose};
ghost use Rattle.io_traits.specs.DiskState.{DiskState, IsHonest, IsRead, IsWrite, IsCut, IsSync, IsQuiet, Torn, Cut, Allow, Fronts, overwrite};

use crate::Failed;

/// A file on a device that may lose what was not synced.
///
/// An honest disk tells what a read gives, which bytes a crash now may leave, its images, and which it may have left
/// at some moment since a time. Between two syncs each range written, each part cut off and the part past the old end
/// may hold any bytes or be missing from the end; bytes outside stay. After a successful sync the only image is what a
/// read gives. A call fails only where the count of faults rose in it.
pub trait Disk {
    /// What the disk tells of itself. Where it isn't honest, this says nothing.
    ghost tells: { Self → DiskState };

    /// How often a call has failed. At its type's end it stands still.
    ghost faults: { Self → ℕ };

    /// The length of the file.
    fn len(&mut self) -> Result<u64, Failed>
        ensures honest { (tells self.new).honest ≡ (tells self.old).honest }
        ensures told { IsHonest (tells self.old) → IsRead (tells self.old) (tells self.new) }
        ensures length { IsHonest (tells self.old) → IfOk result (λ n. n ≡ length (tells self.old).reads) }
        ensures later { faults self.old ≤ faults self.new }
        ensures cause { OnErr result (Rose (faults self.old) (faults self.new)) }
        ensures unmoved { OnOk result (faults self.new ≡ faults self.old) };

    /// Fills the front of the buffer with the bytes from `at` on, as many as there are and as fit.
    fn read_at(&mut self, at: u64, buf: &mut [u8]) -> Result<usize, Failed>
        ensures honest { (tells self.new).honest ≡ (tells self.old).honest }
        ensures told { IsHonest (tells self.old) → IsRead (tells self.old) (tells self.new) }
        ensures fits { IfOk result (λ n. n ≤ length buf.old) }
        ensures bytes { IsHonest (tells self.old) → IfOk result (λ n. Fronts (tells self.old).reads at n buf.old buf.new) }
        ensures later { faults self.old ≤ faults self.new }
        ensures cause { OnErr result (Rose (faults self.old) (faults self.new)) }
        ensures unmoved { OnOk result (faults self.new ≡ faults self.old) };

    /// Writes over what is there, and past the end. A failed write counts as a write of its range.
    /// All that a crash may leave of a write that succeeded is among the images.
    fn write_at(&mut self, at: u64, bytes: &[u8]) -> Result<(), Failed>
        requires { IsHonest (tells self.old) → at ≤ length (tells self.old).reads }
        ensures honest { (tells self.new).honest ≡ (tells self.old).honest }
        ensures told { IsHonest (tells self.old) → IsWrite at (length bytes.now) (tells self.old) (tells self.new) }
        ensures torn { IsHonest (tells self.old)
            → OnOk result (Allow (Torn at (length bytes.now)) (tells self.old).image (tells self.new).image) }
        ensures done { IsHonest (tells self.old) → OnOk result ((tells self.new).reads ≡ overwrite at bytes.now (tells self.old).reads) }
        ensures later { faults self.old ≤ faults self.new }
        ensures cause { OnErr result (Rose (faults self.old) (faults self.new)) }
        ensures unmoved { OnOk result (faults self.new ≡ faults self.old) };

    /// Cuts the file to a length. A failed cut counts as a cut. All that a crash may leave of a cut that succeeded is
    /// among the images.
    fn cut(&mut self, len: u64) -> Result<(), Failed>
        requires { IsHonest (tells self.old) → len ≤ length (tells self.old).reads }
        ensures honest { (tells self.new).honest ≡ (tells self.old).honest }
        ensures told { IsHonest (tells self.old) → IsCut len (tells self.old) (tells self.new) }
        ensures torn { IsHonest (tells self.old)
            → OnOk result (Allow (Cut len) (tells self.old).image (tells self.new).image) }
        ensures done { IsHonest (tells self.old) → OnOk result ((tells self.new).reads ≡ take len (tells self.old).reads) }
        ensures later { faults self.old ≤ faults self.new }
        ensures cause { OnErr result (Rose (faults self.old) (faults self.new)) }
        ensures unmoved { OnOk result (faults self.new ≡ faults self.old) };

    /// Where it succeeds, a crash leaves what a read gives. A failed sync takes away nothing that a crash may leave.
    fn sync(&mut self) -> Result<(), Failed>
        ensures honest { (tells self.new).honest ≡ (tells self.old).honest }
        ensures told { IsHonest (tells self.old) → IsSync (tells self.old) (tells self.new) }
        ensures durable { IsHonest (tells self.old) → OnOk result (IsQuiet (tells self.new)) }
        ensures failed { IsHonest (tells self.old) → OnErr result ((c : List ℕ) → (tells self.old).image c → (tells self.new).image c) }
        ensures later { faults self.old ≤ faults self.new }
        ensures cause { OnErr result (Rose (faults self.old) (faults self.new)) }
        ensures unmoved { OnOk result (faults self.new ≡ faults self.old) };

    /// A disk as it reads is one of its images.
    ghost reads_as_image: { (disk : Self) → IsHonest (tells disk) → (tells disk).image (tells disk).reads };

    /// A file's length has a bound.
    ghost bounded: { (disk : Self) → IsHonest (tells disk) → length (tells disk).reads < 2 ^ 63 };

    /// This moment is one of those since an earlier one.
    ghost counts_now: { (disk : Self) (t : ℕ) (c : List ℕ) → IsHonest (tells disk) → t ≤ (tells disk).moment → (tells disk).image c → (tells disk).image_since t c };

    /// Since this moment there is no other.
    ghost only_now: { (disk : Self) (c : List ℕ) → IsHonest (tells disk) → (tells disk).image_since (tells disk).moment c → (tells disk).image c };
}
