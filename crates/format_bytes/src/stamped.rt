//! A filing behind its stamp, as a record of the journal has it.
ghost use Rattle.std.specs.Prelude.{◌≡◌, ◌≢◌, ◌<◌, ◌+◌, ◌^◌, ◌++◌, ℕ, Ok, Err, IfOk, IfErr};
ghost use Rattle.aid_filings.specs.declared.filing.Filing.{Filing};
ghost use Rattle.format_bytes.specs.Spelling.{spelling};
ghost use Rattle.format_bytes.specs.Stamped.{IsNoStamped, moved};
ghost use Rattle.format_bytes.specs.Numbers.{IsFiling};
ghost use Rattle.aid_stamps.specs.Stamps.{IsStamp, stamp_bytes};
ghost use Rattle.aid_stamps.specs.declared.stamp.Stamp.{Stamp};

use crate::reading::{TakeError, take};
use crate::writing::put;
use aid_filings::Filing;
use aid_stamps::Stamp;
use io_traits::PayloadBuffer;
use std::alloc::Global;

/// Puts the one spelling of a filing behind its stamp into the room, in place of what the room held. It takes no memory.
pub fn put_stamped(filing: &Filing, stamp: &Stamp, room: &mut PayloadBuffer)
    ensures spelled { room.new ≡ stamp_bytes stamp.now ++ spelling filing.now }
    ensures is_stamp { IsStamp stamp.now }
    ensures is_filing { IsFiling filing.now }
{
    put(filing, room);
    stamp.put_front(room);
}

/// The stamp and the filing that the bytes spell, all of them. Only a book takes memory.
pub fn take_stamped(alloc: Global, bytes: &[u8]) -> Result<(Stamp, Filing), TakeError>
    // What is taken is spelled so.
    ensures found { IfOk result (λ r. IsStamp r.0 × IsFiling r.1 × (bytes.now ≡ stamp_bytes r.0 ++ spelling r.1)) }
    // What is spelled so is taken, unless memory runs out.
    ensures only { (stamp : Stamp) (filing : Filing) → IsStamp stamp → IsFiling filing → bytes.now ≡ stamp_bytes stamp ++ spelling filing
        → result ≢ Err TakeError.NoMemory → result ≡ Ok (stamp, filing) }
    // Which place it is: that of the first fault of the stamp, or behind one that of the filing.
    ensures place { IfErr result (λ e. IsNoStamped bytes.now e) }
{
    let (stamp, rest) = match Stamp::read(bytes) {
        Ok(read) => read,
        Err(place) => return Err(TakeError::NotFiling(place)),
    };
    let width = (bytes.len() - rest.len()) as u64;
    match take(alloc, rest) {
        Ok(filing) => Ok((stamp, filing)),
        Err(error) => Err(behind(width, error)),
    }
}

// A fault of what stands behind so many bytes, with its place in all of them.
fn behind(width: u64, error: TakeError) -> TakeError
    requires { (place : ℕ) → error ≡ TakeError.NotFiling place → width + place < 2 ^ 64 }
    ensures { result ≡ moved width error }
{
    match error {
        TakeError::NotFiling(place) => TakeError::NotFiling(width + place),
        TakeError::NoMemory => TakeError::NoMemory,
    }
}
