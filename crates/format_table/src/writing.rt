//! An entry as bytes.
ghost use Rattle.std.specs.Prelude.{◌≡◌, ◌+◌, ◌*◌, ◌≤◌, ◌++◌, true, length, List, ℕ};
ghost use Rattle.format_table.specs.Spelling.{IsAlone, number_bytes, numbers_bytes, row_bytes};
ghost use Rattle.format_table.specs.Forms.{most_numbers};
ghost use Rattle.format_table.specs.Parts.{slots_of};
ghost use Rattle.format_table.specs.Tables.{IsRow, are_plain};

use crate::field::{Form, Part};
use crate::layout::Layout;
use crate::table::EntryCodec;
use io_traits::{CAPACITY, PayloadBuffer};

/// Puts the one spelling of an entry into the room, in place of what the room held. It takes no memory.
pub fn put<T: EntryCodec>(entry: &T::Entry, room: &mut PayloadBuffer)
    ensures spelled { room.new ≡ row_bytes T.key T.kinds (T.code_of entry.now) (T.numbers_of entry.now) }
    ensures is_entry { IsRow T.key T.kinds (T.code_of entry.now) (T.numbers_of entry.now) }
    ensures not_empty { 1 ≤ length (row_bytes T.key T.kinds (T.code_of entry.now) (T.numbers_of entry.now)) }
    ensures fits { length (row_bytes T.key T.kinds (T.code_of entry.now) (T.numbers_of entry.now)) ≤ CAPACITY }
    // No spelling begins another, and no other entry has this one.
    ensures alone { (other : T.Entry) (rest : List ℕ) → IsRow T.key T.kinds (T.code_of other) (T.numbers_of other)
        → row_bytes T.key T.kinds (T.code_of entry.now) (T.numbers_of entry.now) ++ rest ≡ row_bytes T.key T.kinds (T.code_of other) (T.numbers_of other)
        → IsAlone entry.now other rest }
{
    put_row::<T>(entry, room);
}

fn put_row<T: EntryCodec>(entry: &T::Entry, room: &mut PayloadBuffer)
    ensures spelled { room.new ≡ row_bytes T.key T.kinds (T.code_of entry.now) (T.numbers_of entry.now) }
    ensures is_entry { IsRow T.key T.kinds (T.code_of entry.now) (T.numbers_of entry.now) }
{
    let code = T::code(entry);
    let numbers = T::numbers(entry);
    let Some(row) = T::row(code) else {
        unreachable!();
    };
    room.clear();
    room.append(&[code]);
    put_numbers(T::key_parts(), row.parts, numbers.as_slice(), room);
}

/// Puts numbers behind the bytes of a room, each in its field's bytes.
pub fn put_numbers(
    key: &'static [Part],
    parts: &'static [Part],
    numbers: &[i64],
    room: &mut PayloadBuffer,
)
    requires few { length numbers.now ≤ most_numbers }
    requires plain { are_plain (slots_of key.now) ≡ true }
    requires fits { length room.old ≤ 1 }
    ensures added { room.new ≡ room.old ++ numbers_bytes (slots_of key.now ++ slots_of parts.now) numbers.now }
{
    let mut layout = Layout::new(key, parts);
    for number in numbers {
        if let Some(field) = layout.next() {
            put_number(field.form, *number, room);
            layout.advance(*number);
        }
    }
}

fn put_number(form: Form, number: i64, room: &mut PayloadBuffer)
    requires fits { length room.old + 8 ≤ 8192 }
    ensures added { room.new ≡ room.old ++ number_bytes form number }
    ensures grown { length room.new ≤ length room.old + 8 }
{
    let bytes = number.to_le_bytes();
    room.append(&bytes[..form.width()]);
}
