// The part of a file that is at hand.
ghost use Rattle.std.specs.Prelude.{◌≡◌, ◌+◌, ◌<◌, ◌≤◌, ◌^◌, IsTrue, List, ℕ, length, take, OnOk, OnErr};
ghost use Rattle.io_traits.specs.Faults.{Rose};
ghost use Rattle.io_traits.specs.DiskState.{IsHonest, IsRead};

use io_traits::{Disk, Failed};

// How many bytes each read asks for.
const PIECE: usize = 4096;

/// The bytes of a file from a place on, up to 4,096, as one read gave them.
#[derive(Drop)]
pub(crate) struct Piece {
    bytes: [u8; PIECE],
    // The place of the first of them.
    start: u64,
    // How many there are.
    len: usize,
    ghost fits: { len ≤ 4096 },
}

impl Piece {
    ghost use Rattle.log_journal.specs.Piece.{IsPieceOf, Reaches, ahead};

    // No bytes, as there are behind the end of each file.
    pub(crate) fn none() -> Self
        ensures { (file : List ℕ) → length file < 2 ^ 63 → IsPieceOf result file }
    {
        Piece {
            bytes: [0; PIECE],
            start: u64::MAX,
            len: 0,
        }
    }

    // Whether it has so many bytes from a place on, or all that there are.
    fn has(&self, at: u64, need: usize) -> bool
        requires { at + need < 2 ^ 64 }
        ensures { (file : List ℕ) → IsTrue result → IsPieceOf self.now file → Reaches self.now at need file }
    {
        self.start <= at && (self.len < PIECE || at - self.start + need as u64 <= self.len as u64)
    }

    // Takes what stands from a place on in the stead of what it has.
    fn read<D: Disk>(&mut self, disk: &mut D, at: u64) -> Result<(), Failed>
        ensures honest { (D.tells disk.new).honest ≡ (D.tells disk.old).honest }
        ensures told { IsHonest (D.tells disk.old) → IsRead (D.tells disk.old) (D.tells disk.new) }
        ensures piece { IsHonest (D.tells disk.old) → IsPieceOf self.new (D.tells disk.old).reads }
        ensures reached { IsHonest (D.tells disk.old) → OnOk result (Reaches self.new at 4096 (D.tells disk.old).reads) }
        ensures later { D.faults disk.old ≤ D.faults disk.new }
        ensures cause { OnErr result (Rose (D.faults disk.old) (D.faults disk.new)) }
        ensures unmoved { OnOk result (D.faults disk.new ≡ D.faults disk.old) }
    {
        self.start = u64::MAX;
        self.len = 0;
        self.len = disk.read_at(at, &mut self.bytes)?;
        self.start = at;
        Ok(())
    }

    // Reads on where it hasn't so many bytes from a place on.
    pub(crate) fn reach<D: Disk>(
        &mut self,
        disk: &mut D,
        at: u64,
        need: usize,
    ) -> Result<(), Failed>
        requires need { need ≤ 4096 }
        requires end { at + need < 2 ^ 64 }
        requires piece { IsHonest (D.tells disk.old) → IsPieceOf self.old (D.tells disk.old).reads }
        ensures honest { (D.tells disk.new).honest ≡ (D.tells disk.old).honest }
        ensures told { IsHonest (D.tells disk.old) → IsRead (D.tells disk.old) (D.tells disk.new) }
        ensures piece { IsHonest (D.tells disk.old) → IsPieceOf self.new (D.tells disk.old).reads }
        ensures reached { IsHonest (D.tells disk.old) → OnOk result (Reaches self.new at need (D.tells disk.old).reads) }
        ensures later { D.faults disk.old ≤ D.faults disk.new }
        ensures cause { OnErr result (Rose (D.faults disk.old) (D.faults disk.new)) }
        ensures unmoved { OnOk result (D.faults disk.new ≡ D.faults disk.old) }
    {
        if self.has(at, need) {
            return Ok(());
        }
        self.read(disk, at)
    }

    // Its bytes from a place on, no more than so many.
    pub(crate) fn part(&self, at: u64, most: usize) -> &[u8]
        ensures { result.now ≡ take most (ahead self.now at) }
    {
        let from = usize::min(at.saturating_sub(self.start) as usize, self.len);
        let to = usize::min(self.len - from, most) + from;
        &self.bytes[from..to]
    }
}
