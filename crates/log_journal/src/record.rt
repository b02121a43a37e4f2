// What stands at a gate.
ghost use Rattle.std.specs.Prelude.{◌≡◌, ◌+◌, ◌-◌, ◌<◌, ◌≤◌, ◌^◌, ◌++◌, IsTrue, List, ℕ, length, take, drop, IfOk, OnOk, OnErr, MatchBool};
ghost use Rattle.io_traits.specs.Faults.{Rose};
ghost use Rattle.io_traits.specs.DiskState.{IsHonest, IsRead};
ghost use Rattle.log_journal.specs.Piece.{IsPieceOf};
ghost use Rattle.log_journal.specs.Record.{RecordAt, StartsWith, IfSize, IfWhole};

use crate::piece::Piece;
use io_traits::{CAPACITY, Disk, Failed, PayloadBuffer};

/// What a gate and the length behind it say.
#[derive(Clone, Copy, PartialEq, Eq)]
pub(crate) enum Start {
    /// A gate that isn't open.
    Shut,
    /// The file ends, or the length isn't that of a payload.
    Bad,
    /// A payload of this size may follow.
    Size(usize),
}

/// What stands at a gate.
#[derive(Clone, Copy, PartialEq, Eq)]
pub(crate) enum Record {
    /// Nothing that counts.
    Closed,
    /// Something that is no record.
    Broken,
    /// A payload of this size.
    Whole(u64),
}

// Reads a gate and a length from the first five bytes at a gate, or from all where there are fewer.
fn start_of(front: &[u8]) -> Start
    ensures start { (file : List ℕ) → front.now ≡ take 5 file → StartsWith file result }
    ensures size { IfSize result (λ n. (1 ≤ n) × (n ≤ 8192)) }
{
    if front.is_empty() {
        return Start::Bad;
    }
    if front[0] != 1 {
        return Start::Shut;
    }
    if front.len() < 5 {
        return Start::Bad;
    }
    let size = u32::from_le_bytes([front[1], front[2], front[3], front[4]]) as usize;
    if size == 0 || size > CAPACITY {
        Start::Bad
    } else {
        Start::Size(size)
    }
}

// Reads a gate and a length.
fn read_start<D: Disk>(disk: &mut D, piece: &mut Piece, gate: u64) -> Result<Start, Failed>
    requires end { gate < 2 ^ 63 }
    requires piece { IsHonest (D.tells disk.old) → IsPieceOf piece.old (D.tells disk.old).reads }
    ensures honest { (D.tells disk.new).honest ≡ (D.tells disk.old).honest }
    ensures told { IsHonest (D.tells disk.old) → IsRead (D.tells disk.old) (D.tells disk.new) }
    ensures piece { IsHonest (D.tells disk.old) → IsPieceOf piece.new (D.tells disk.old).reads }
    ensures start { IsHonest (D.tells disk.old)
        → IfOk result (λ start. StartsWith (drop gate (D.tells disk.old).reads) start) }
    ensures size { IfOk result (λ start. IfSize start (λ n. (1 ≤ n) × (n ≤ 8192))) }
    ensures later { D.faults disk.old ≤ D.faults disk.new }
    ensures cause { OnErr result (Rose (D.faults disk.old) (D.faults disk.new)) }
    ensures unmoved { OnOk result (D.faults disk.new ≡ D.faults disk.old) }
{
    piece.reach(disk, gate, 5)?;
    Ok(start_of(piece.part(gate, 5)))
}

// Adds bytes from a place on to the room, at most so many, and answers how many: none only where the file ends.
fn read_part<D: Disk>(
    disk: &mut D,
    piece: &mut Piece,
    at: u64,
    most: usize,
    room: &mut PayloadBuffer,
) -> Result<usize, Failed>
    requires some { 1 ≤ most }
    requires fits { length room.old + most ≤ 8192 }
    requires end { at + 1 < 2 ^ 64 }
    requires piece { IsHonest (D.tells disk.old) → IsPieceOf piece.old (D.tells disk.old).reads }
    ensures honest { (D.tells disk.new).honest ≡ (D.tells disk.old).honest }
    ensures told { IsHonest (D.tells disk.old) → IsRead (D.tells disk.old) (D.tells disk.new) }
    ensures piece { IsHonest (D.tells disk.old) → IsPieceOf piece.new (D.tells disk.old).reads }
    ensures bytes { IsHonest (D.tells disk.old) → IfOk result (λ n. (n ≤ length (drop at (D.tells disk.old).reads))
        × (room.new ≡ room.old ++ take n (drop at (D.tells disk.old).reads))
        × (n ≡ 0 → length (drop at (D.tells disk.old).reads) ≡ 0)) }
    ensures size { IfOk result (λ n. (n ≤ most) × (length room.new ≡ length room.old + n)) }
    ensures later { D.faults disk.old ≤ D.faults disk.new }
    ensures cause { OnErr result (Rose (D.faults disk.old) (D.faults disk.new)) }
    ensures unmoved { OnOk result (D.faults disk.new ≡ D.faults disk.old) }
{
    piece.reach(disk, at, 1)?;
    let part = piece.part(at, most);
    room.append(part);
    Ok(part.len())
}

// Reads this many bytes into the room, and answers whether there are as many.
fn read_payload<D: Disk>(
    disk: &mut D,
    piece: &mut Piece,
    at: u64,
    size: usize,
    room: &mut PayloadBuffer,
) -> Result<bool, Failed>
    requires size { size ≤ 8192 }
    requires end { at < 2 ^ 64 - 8193 }
    requires piece { IsHonest (D.tells disk.old) → IsPieceOf piece.old (D.tells disk.old).reads }
    ensures honest { (D.tells disk.new).honest ≡ (D.tells disk.old).honest }
    ensures told { IsHonest (D.tells disk.old) → IsRead (D.tells disk.old) (D.tells disk.new) }
    ensures piece { IsHonest (D.tells disk.old) → IsPieceOf piece.new (D.tells disk.old).reads }
    ensures bytes { IsHonest (D.tells disk.old) → IfOk result (λ whole. MatchBool whole
        ((room.new ≡ take size (drop at (D.tells disk.old).reads)) × (size ≤ length (drop at (D.tells disk.old).reads)))
        (length (drop at (D.tells disk.old).reads) < size)) }
    ensures later { D.faults disk.old ≤ D.faults disk.new }
    ensures cause { OnErr result (Rose (D.faults disk.old) (D.faults disk.new)) }
    ensures unmoved { OnOk result (D.faults disk.new ≡ D.faults disk.old) }
{
    room.clear();
    let mut done = 0;
    while done < size {
        let n = read_part(disk, piece, at + done as u64, size - done, room)?;
        if n == 0 {
            return Ok(false);
        }
        done += n;
    }
    Ok(true)
}

// Reads what stands at a gate. The payload of a whole record is put into the room.
pub(crate) fn read_record<D: Disk>(
    disk: &mut D,
    piece: &mut Piece,
    gate: u64,
    room: &mut PayloadBuffer,
) -> Result<Record, Failed>
    requires { IsHonest (D.tells disk.old) → IsPieceOf piece.old (D.tells disk.old).reads }
    ensures honest { (D.tells disk.new).honest ≡ (D.tells disk.old).honest }
    ensures told { IsHonest (D.tells disk.old) → IsRead (D.tells disk.old) (D.tells disk.new) }
    ensures piece { IsHonest (D.tells disk.old) → IsPieceOf piece.new (D.tells disk.old).reads }
    ensures stands { IsHonest (D.tells disk.old)
        → IfOk result (λ r. RecordAt (drop gate (D.tells disk.old).reads) r room.new) }
    ensures size { IfOk result (λ r. IfWhole r (λ n. (1 ≤ n) × (n ≤ 8192) × (gate < 2 ^ 63))) }
    ensures later { D.faults disk.old ≤ D.faults disk.new }
    ensures cause { OnErr result (Rose (D.faults disk.old) (D.faults disk.new)) }
    ensures unmoved { OnOk result (D.faults disk.new ≡ D.faults disk.old) }
{
    if gate >= 1 << 63 {
        return Ok(Record::Broken);
    }
    match read_start(disk, piece, gate)? {
        Start::Shut => Ok(Record::Closed),
        Start::Bad => Ok(Record::Broken),
        Start::Size(size) => {
            if read_payload(disk, piece, gate + 5, size, room)? {
                Ok(Record::Whole(size as u64))
            } else {
                Ok(Record::Broken)
            }
        }
    }
}
