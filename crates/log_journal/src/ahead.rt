// A payload that was written before it is put.
ghost use Rattle.std.specs.Prelude.{◌≡◌, ◌⊎◌, ◌≤◌, [], length};
ghost use Rattle.log_journal.specs.Ahead.{block_of};

use std::marker::Model;

/// The greatest length of a payload that is written ahead.
pub(crate) const MOST_AHEAD: usize = 512;

/// A payload that stands behind the closed gate before it is put, or none. A contract sees its bytes: none where it is none.
#[derive(Drop)]
pub(crate) struct Ahead {
    block: [u8; MOST_AHEAD],
    size: usize,
}

impl Model for Ahead {
    ghost use Rattle.std.specs.Prelude.{ℕ, ◌≤◌, List, take};

    ghost Value = { List ℕ };

    ghost view = { λ ahead. take ahead.size ahead.block };

    ghost invariant = { λ ahead. ahead.size ≤ 512 };
}

impl Ahead {
    // No payload.
    pub(crate) fn none() -> Self
        ensures { result ≡ [] }
    {
        Ahead {
            block: [0; MOST_AHEAD],
            size: 0,
        }
    }

    // Its bytes.
    pub(crate) fn bytes(&self) -> &[u8]
        ensures bytes { result.now ≡ self.now }
        ensures fits { length self.now ≤ MOST_AHEAD }
    {
        &self.block[..self.size]
    }

    // How many bytes it takes behind the closed gate, with the closed gate behind it.
    pub(crate) fn block_size(&self) -> u64
        ensures size { result ≡ length (block_of self.now) }
        ensures few { result ≤ 517 }
    {
        if self.size == 0 {
            0
        } else {
            self.size as u64 + 5
        }
    }

    // These bytes in place of what it was.
    pub(crate) fn set(&mut self, bytes: &[u8])
        requires fits { length bytes.now ≤ MOST_AHEAD }
        ensures { self.new ≡ bytes.now }
    {
        self.block[..bytes.len()].copy_from_slice(bytes);
        self.size = bytes.len();
    }
}

/// What of a payload is written ahead: all of it where it is short, and nothing of a longer one.
pub(crate) fn part_ahead(payload: &[u8]) -> &[u8]
    ensures part { (result.now ≡ payload.now) ⊎ (result.now ≡ []) }
    ensures fits { length result.now ≤ MOST_AHEAD }
{
    if payload.len() <= MOST_AHEAD {
        payload
    } else {
        &[]
    }
}
