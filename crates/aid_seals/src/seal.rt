//! A seal, and that of a list with one entry more.
ghost use Rattle.std.specs.Prelude.{◌≡◌, ◌<◌, ◌^◌, [], length};
ghost use Rattle.aid_seals.specs.Seals.{next_seal, seal as seal_of_list};

use sha2::{Digest, Sha256};

/// The seal of a list: the SHA-256 (FIPS 180-4) of the seal before its newest entry and of that entry.
#[derive(Clone, Copy, PartialEq, Eq)]
pub struct Seal {
    pub bytes: [u8; 32],
}

/// The seal of no entry, of lists of this name: that of the journal that keeps them.
pub fn first_seal(name: &[u8]) -> Seal
    ensures { result.bytes ≡ seal_of_list name.now [] }
{
    let mut hasher = Sha256::new();
    hasher.update(b"dalthyrm seal 1 ");
    hasher.update(name);
    Seal {
        bytes: hasher.finalize(),
    }
}

impl Seal {
    /// The seal of the list with one entry more, whose bytes these are.
    pub fn with(self, entry: &[u8]) -> Seal
        requires { length entry.now < 2 ^ 32 }
        ensures { result.bytes ≡ next_seal self.bytes entry.now }
    {
        let count = entry.len() as u32;
        let mut hasher = Sha256::new();
        hasher.update(self.bytes);
        hasher.update(count.to_le_bytes());
        hasher.update(entry);
        Seal {
            bytes: hasher.finalize(),
        }
    }
}
