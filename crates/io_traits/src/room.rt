//! A buffer that is taken once.
ghost use Rattle.std.specs.Prelude.{◌≡◌, ◌+◌, ◌≤◌, [], ◌++◌, length, take, IfOk};

use std::alloc::{AllocError, Global};
use std::marker::Model;

/// How many bytes a room takes.
pub const CAPACITY: usize = 8192;

/// A buffer of 8,192 bytes, which are taken once. A contract sees the list of bytes that it holds.
#[derive(Drop)]
pub struct PayloadBuffer {
    block: Box<[u8; 8192]>,
    used: usize,
}

impl Model for PayloadBuffer {
    ghost use Rattle.std.specs.Prelude.{ℕ, ◌≤◌, List, take};

    ghost Value = { List ℕ };

    ghost view = { λ room. take room.used room.block.value };

    ghost invariant = { λ room. room.used ≤ 8192 };
}

// Puts bytes before the first `used` ones of a block.
fn put_before(block: &mut [u8], used: usize, bytes: &[u8])
    requires fits { used + length bytes.now ≤ length block.old }
    ensures put { take (used + length bytes.now) block.new ≡ bytes.now ++ take used block.old }
{
    let count = bytes.len();
    block.copy_within(..used, count);
    block[..count].copy_from_slice(bytes);
}

impl PayloadBuffer {
    /// An empty room.
    pub fn new(alloc: Global) -> Result<Self, AllocError>
        ensures empty { IfOk result (λ room. room ≡ []) }
    {
        let block = Box::new(alloc, [0u8; 8192])?;
        Ok(PayloadBuffer { block, used: 0 })
    }

    /// What it holds.
    pub fn bytes(&self) -> &[u8]
        ensures held { result.now ≡ self.now }
        ensures fits { length self.now ≤ CAPACITY }
    {
        &self.block[..self.used]
    }

    /// Empties it.
    pub fn clear(&mut self)
        ensures empty { self.new ≡ [] }
    {
        self.used = 0;
    }

    /// Adds bytes at its end.
    pub fn append(&mut self, bytes: &[u8])
        requires fits { length self.old + length bytes.now ≤ CAPACITY }
        ensures added { self.new ≡ self.old ++ bytes.now }
    {
        let end = self.used + bytes.len();
        self.block[self.used..end].copy_from_slice(bytes);
        self.used = end;
    }

    /// Puts bytes before all that it holds.
    pub fn put_front(&mut self, bytes: &[u8])
        requires fits { length self.old + length bytes.now ≤ CAPACITY }
        ensures put { self.new ≡ bytes.now ++ self.old }
    {
        let used = self.used;
        put_before(&mut self.block[..], used, bytes);
        self.used = used + bytes.len();
    }
}
