//! A filing as bytes.
ghost use Rattle.std.specs.Prelude.{◌≡◌, ◌≤◌, ◌++◌, length, List, ℕ};
ghost use Rattle.aid_filings.specs.declared.filing.Filing.{Filing};
ghost use Rattle.format_bytes.specs.Spelling.{IsAlone, spelling};
ghost use Rattle.format_bytes.specs.Numbers.{IsFiling};

use crate::{kind, numbers_in};
use aid_filings::Filing;
use format_kinds::{key_parts, table_row};
use format_table::put_numbers;
use io_traits::{CAPACITY, PayloadBuffer};

/// Puts the one spelling of a filing into the room, in place of what the room held. It takes no memory.
pub fn put(filing: &Filing, room: &mut PayloadBuffer)
    ensures spelled { room.new ≡ spelling filing.now }
    ensures is_filing { IsFiling filing.now }
    ensures not_empty { 1 ≤ length (spelling filing.now) }
    ensures fits { length (spelling filing.now) ≤ CAPACITY }
    // No spelling begins another, and no other filing has this one.
    ensures alone { (other : Filing) (rest : List ℕ) → IsFiling other → spelling filing.now ++ rest ≡ spelling other → IsAlone filing.now other rest }
{
    put_parts(filing, room);
}

fn put_parts(filing: &Filing, room: &mut PayloadBuffer)
    ensures spelled { room.new ≡ spelling filing.now }
    ensures is_filing { IsFiling filing.now }
{
    let kind = kind(&filing.what);
    let numbers = numbers_in(filing);
    room.clear();
    room.append(&[table_row(kind).code]);
    put_numbers(key_parts(), table_row(kind).parts, numbers.as_slice(), room);
}
