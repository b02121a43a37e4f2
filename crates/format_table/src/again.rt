//! What is put is taken again.
ghost use Rattle.std.specs.Prelude.{◌≡◌, Ok};

use crate::reading::take;
use crate::table::EntryCodec;
use crate::writing::put;
use io_traits::PayloadBuffer;

/// The entry that the bytes of an entry spell is that entry.
pub fn put_and_take<T: EntryCodec>(
    entry: &T::Entry,
    room: &mut PayloadBuffer,
) -> Result<T::Entry, u64>
    ensures { result ≡ Ok entry.now }
{
    put::<T>(entry, room);
    take::<T>(room.bytes())
}
