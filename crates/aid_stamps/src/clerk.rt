// The name of a clerk.
ghost use Rattle.std.specs.Prelude.{◌≡◌, ◌≤◌, ◌↔◌, [], length, IsSome, IfSome, IsTrue};
ghost use Rattle.std.specs.List.{list_all};
ghost use Rattle.aid_stamps.specs.Clerks.{IsClerk, is_clerk_byte as is_named_by, is_clerk as is_named};

use std::marker::Model;

/// The name of a clerk: at most 32 bytes, which are ASCII letters, digits, `.`, `_` and `-`, the first not `-`. A contract
/// sees the bytes.
#[derive(Clone, Copy, PartialEq, Eq, Debug)]
pub struct ClerkName {
    bytes: [u8; 32],
    count: u8,
}

impl Model for ClerkName {
    ghost use Rattle.std.specs.Prelude.{ℕ, List, IsTrue, length, take};
    ghost use Rattle.aid_types.specs.Filled.{filled, IsFilled};
    ghost use Rattle.aid_stamps.specs.Clerks.{is_clerk};

    ghost Value = { List ℕ };

    ghost view = { λ c. take c.count c.bytes };

    ghost invariant = { λ c. IsFilled 32 0 c.count c.bytes × IsTrue (is_clerk (take c.count c.bytes)) };

    ghost inverse = { λ name. record { bytes = filled 32 0 name; count = length name } };
}

// Whether a name may have this byte.
fn is_clerk_byte(byte: u8) -> bool
    ensures { result ≡ is_named_by byte }
{
    matches!(byte, b'a'..=b'z' | b'A'..=b'Z' | b'0'..=b'9' | b'.' | b'_' | b'-')
}

// Whether a name may have each of these bytes.
fn are_clerk_bytes(name: &[u8]) -> bool
    ensures { result ≡ list_all is_named_by name.now }
{
    name.iter().all(|byte| is_clerk_byte(*byte))
}

// Whether bytes are a name, but for their number.
fn is_clerk(name: &[u8]) -> bool
    ensures { result ≡ is_named name.now }
{
    match name {
        [] => true,
        [first, ..] => *first != b'-' && are_clerk_bytes(name),
    }
}

// The name of bytes that are one.
fn named(name: &[u8]) -> ClerkName
    requires { IsClerk name.now }
    ensures { result ≡ name.now }
{
    let mut bytes = [0; 32];
    bytes[..name.len()].copy_from_slice(name);
    ClerkName {
        bytes,
        count: name.len() as u8,
    }
}

impl ClerkName {
    /// No name.
    pub fn none() -> Self
        ensures { result ≡ [] }
    {
        ClerkName {
            bytes: [0; 32],
            count: 0,
        }
    }

    /// The name of these bytes, where they are one.
    pub fn new(name: &[u8]) -> Option<Self>
        ensures some { IsSome result ↔ IsClerk name.now }
        ensures value { IfSome result (λ clerk. clerk ≡ name.now) }
    {
        if name.len() <= 32 && is_clerk(name) {
            Some(named(name))
        } else {
            None
        }
    }

    /// Its bytes.
    pub fn as_bytes(&self) -> &[u8]
        ensures value { result.now ≡ self.now }
        ensures is_clerk { IsClerk self.now }
    {
        &self.bytes[..self.count as usize]
    }
}
