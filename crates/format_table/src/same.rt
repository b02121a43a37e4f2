//! Whether two entries are one.
ghost use Rattle.std.specs.Prelude.{◌≡◌, ◌↔◌, IsTrue};

use crate::table::EntryCodec;

/// Whether two entries are the same: those of a kind are told by their numbers.
pub fn is_same<T: EntryCodec>(one: &T::Entry, other: &T::Entry) -> bool
    ensures { IsTrue result ↔ (one.now ≡ other.now) }
{
    let numbers = T::numbers(one);
    let others = T::numbers(other);
    T::code(one) == T::code(other) && numbers.as_slice() == others.as_slice()
}
