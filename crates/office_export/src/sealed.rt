//! The seal of an office's filings, each behind its stamp. A slice has the oldest first.
ghost use Rattle.std.specs.Prelude.{◌≡◌, ◌++◌, IfOk, length, reverse};
ghost use Rattle.aid_seals.specs.Seals.{next_seal};
ghost use Rattle.aid_stamps.specs.Stamps.{stamp_bytes};
ghost use Rattle.format_bytes.specs.Spelling.{spelling};
ghost use Rattle.office_export.specs.Seals.{office_seal};

use aid_filings::Filing;
use aid_seals::{Seal, first_seal};
use aid_stamps::Stamp;
use format_bytes::put_stamped;
use io_traits::PayloadBuffer;
use std::alloc::{AllocError, Global};

/// The name in the header of an office's journal.
pub const OFFICE: [u8; 8] = *b"AIDPELL1";

/// The seal of all filings and stamps, in one pass over them. An `Err` is want of memory for the room of a payload.
pub fn seal_of_filings(
    alloc: Global,
    filings: &[Filing],
    stamps: &[Stamp],
) -> Result<Seal, AllocError>
    // Each filing has its stamp.
    requires stamped { length stamps.now ≡ length filings.now }
    ensures { IfOk result (λ seal. seal.bytes ≡ office_seal (reverse filings.now) (reverse stamps.now)) }
{
    let mut room = PayloadBuffer::new(alloc)?;
    let mut seal = first_seal(&OFFICE);
    for (index, filing) in filings.iter().enumerate() {
        seal = sealed_with(seal, filing, &stamps[index], &mut room);
    }
    Ok(seal)
}

/// The seal with one filing more. The room is where it is spelled.
pub fn sealed_with(seal: Seal, filing: &Filing, stamp: &Stamp, room: &mut PayloadBuffer) -> Seal
    ensures { result.bytes ≡ next_seal seal.bytes (stamp_bytes stamp.now ++ spelling filing.now) }
{
    put_stamped(filing, stamp, room);
    seal.with(room.bytes())
}
