// A stamp, and its bytes.
ghost use Rattle.std.specs.Prelude.{◌≡◌, ◌+◌, ◌≤◌, ◌++◌, ◌∷◌, List, ℕ, Err, IfOk, IfErr, IsOk, length};
ghost use Rattle.aid_stamps.specs.Clerks.{IsClerk, clerk_bytes};
ghost use Rattle.aid_stamps.specs.Reading.{IsNoClerk, IsNoStamp};
ghost use Rattle.aid_stamps.specs.Stamps.{IsStamp, plain_stamp, stamp_bytes};
ghost use Rattle.aid_stamps.specs.declared.stamp.Stamp.{Stamp};

use crate::ClerkName;
use crate::day::{bytes_of, day_at};
use aid_types::Day;
use io_traits::PayloadBuffer;

/// When an entry was made, and by whom.
#[derive(Clone, Copy, PartialEq, Eq, Debug)]
pub struct Stamp {
    pub day: Day,
    pub clerk: ClerkName,
}

// The name at the front of the bytes behind its count, and what stands behind it; or the place of the first fault, that of the
// count being 4.
fn clerk_at(bytes: &[u8]) -> Result<(ClerkName, &[u8]), u64>
    ensures found { IfOk result (λ r. IsClerk r.0 × (bytes.now ≡ clerk_bytes r.0 ++ r.1.now)) }
    ensures place { IfErr result (IsNoClerk bytes.now) }
{
    let [count, rest @ ..] = bytes else {
        return Err(4);
    };
    let count = *count as usize;
    if 32 < count {
        return Err(4);
    }
    if rest.len() < count {
        return Err(5);
    }
    let (name, behind) = rest.split_at(count);
    match ClerkName::new(name) {
        Some(clerk) => Ok((clerk, behind)),
        None => Err(5),
    }
}

impl Stamp {
    /// The plain stamp: 1970-01-01, and no name.
    pub fn plain() -> Stamp
        ensures { result ≡ plain_stamp }
    {
        Stamp {
            day: Day(0),
            clerk: ClerkName::none(),
        }
    }

    /// Puts its bytes into the front of the room.
    pub fn put_front(self, room: &mut PayloadBuffer)
        requires fits { length room.old ≤ 8155 }
        ensures put { room.new ≡ stamp_bytes self ++ room.old }
        ensures in_range { IsStamp self }
    {
        let name = self.clerk.as_bytes();
        room.put_front(name);
        room.put_front(&[name.len() as u8]);
        room.put_front(&bytes_of(self.day));
    }

    /// The stamp at the front of the bytes, and what stands behind it; or the place of the first byte of the first field that is
    /// short or past its limit.
    pub fn read(bytes: &[u8]) -> Result<(Stamp, &[u8]), u64>
        ensures found { IfOk result (λ r. IsStamp r.0 × (bytes.now ≡ stamp_bytes r.0 ++ r.1.now)) }
        ensures only { (stamp : Stamp) (rest : List ℕ) → IsStamp stamp → bytes.now ≡ stamp_bytes stamp ++ rest → IsOk result }
        ensures place { IfErr result (IsNoStamp bytes.now) }
    {
        let [a, b, c, d, rest @ ..] = bytes else {
            return Err(0);
        };
        let Some(day) = day_at([*a, *b, *c, *d]) else {
            return Err(0);
        };
        match clerk_at(rest) {
            Ok((clerk, behind)) => Ok((Stamp { day, clerk }, behind)),
            Err(place) => Err(place),
        }
    }
}
