// The header and the records are written, but for the first byte. No sync keeps them yet.
ghost use Rattle.std.specs.Prelude.{◌≡◌, ◌+◌, ◌<◌, ◌≤◌, ◌^◌, ◌++◌, [], ◌∷◌, length, drop, IfOk, OnOk, OnErr};
ghost use Rattle.io_traits.specs.Faults.{Rose};
ghost use Rattle.io_traits.specs.DiskState.{IsHonest, EachImage, EachMoment, IsWrite, overwrite};
ghost use Rattle.log_journal.specs.Header.{header_bytes};
ghost use Rattle.log_journal.specs.Stands.{body_of};
ghost use Rattle.log_builds.specs.Laid.{HasLaid, IsShut};

use crate::Entries;
use io_traits::{CAPACITY, Disk, Failed, PayloadBuffer};
use log_journal::Header;

const OPEN: u8 = 1;

// The bytes of a record besides its payload's: a gate and the length.
const AROUND: u64 = 5;

// The header behind its first byte.
fn behind_first(header: Header) -> [u8; 15]
    ensures { result ≡ drop 1 (header_bytes header) }
{
    let mut bytes = [0; 15];
    bytes[..8].copy_from_slice(&header.name);
    bytes[8..12].copy_from_slice(&header.version.to_le_bytes());
    bytes
}

// An open gate, the length and the payload.
fn fill(block: &mut [u8], payload: &[u8])
    requires fits { length payload.now ≤ 8192 }
    requires size { length block.old ≡ length payload.now + 5 }
    ensures { block.new ≡ 1 ∷ body_of payload.now }
{
    block[0] = OPEN;
    block[1..5].copy_from_slice(&(payload.len() as u32).to_le_bytes());
    block[5..].copy_from_slice(payload);
}

// Writes the record of a payload at a place.
fn write_record<D: Disk>(disk: &mut D, place: u64, payload: &[u8]) -> Result<(), Failed>
    requires fits { length payload.now ≤ 8192 }
    requires inside { IsHonest (D.tells disk.old) → place ≤ length (D.tells disk.old).reads }
    ensures honest { (D.tells disk.new).honest ≡ (D.tells disk.old).honest }
    ensures told { IsHonest (D.tells disk.old) → IsWrite place (length payload.now + 5) (D.tells disk.old) (D.tells disk.new) }
    ensures done { IsHonest (D.tells disk.old)
        → OnOk result ((D.tells disk.new).reads ≡ overwrite place (1 ∷ body_of payload.now) (D.tells disk.old).reads) }
    ensures later { D.faults disk.old ≤ D.faults disk.new }
    ensures cause { OnErr result (Rose (D.faults disk.old) (D.faults disk.new)) }
    ensures unmoved { OnOk result (D.faults disk.new ≡ D.faults disk.old) }
{
    let size = payload.len() + 5;
    let mut block = [0; CAPACITY + 5];
    fill(&mut block[..size], payload);
    disk.write_at(place, &block[..size])
}

/// Writes a journal behind its first byte, and answers the place of the gate that is to be closed behind its records.
pub(crate) fn write_records<D: Disk, E: Entries>(
    disk: &mut D,
    header: Header,
    entries: &mut E,
    room: &mut PayloadBuffer,
) -> Result<u64, Failed>
    requires few { length (E.left entries.old) < 2 ^ 32 }
    requires shut { IsHonest (D.tells disk.old) → EachImage (D.tells disk.old) IsShut }
    ensures honest { (D.tells disk.new).honest ≡ (D.tells disk.old).honest }
    ensures laid { IsHonest (D.tells disk.old)
        → IfOk result (λ place. HasLaid header E.spelling E.IsEntry (E.left entries.old) [] place (D.tells disk.new).reads) }
    ensures shut { IsHonest (D.tells disk.old) → EachImage (D.tells disk.new) IsShut }
    ensures moments { IsHonest (D.tells disk.old) → EachMoment (D.tells disk.old) (D.tells disk.new) IsShut }
    ensures later { D.faults disk.old ≤ D.faults disk.new }
    ensures cause { OnErr result (Rose (D.faults disk.old) (D.faults disk.new)) }
    ensures unmoved { OnOk result (D.faults disk.new ≡ D.faults disk.old) }
{
    disk.write_at(1, &behind_first(header))?;
    let mut place = 16;
    while entries.next(room) {
        let payload = room.bytes();
        write_record(disk, place, payload)?;
        place += payload.len() as u64 + AROUND;
    }
    Ok(place)
}
