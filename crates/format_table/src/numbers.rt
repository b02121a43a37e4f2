//! Room for the numbers of a filing.
ghost use Rattle.std.specs.Prelude.{◌≡◌, ◌+◌, ◌≤◌, ◌++◌, length};
ghost use Rattle.format_table.specs.Forms.{most_numbers};

use arrayvec::ArrayVec;

/// The most numbers that a filing has: 2 of its key, and 368 of a book of form 2 whose tables are full.
pub const MOST_NUMBERS: usize = 370;

/// The numbers of a filing.
pub type Numbers = ArrayVec<i64, MOST_NUMBERS>;

/// Puts more numbers behind the others.
pub fn add_numbers(more: &[i64], numbers: &mut Numbers)
    requires { length numbers.old.items + length more.now ≤ most_numbers }
    ensures added { numbers.new.items ≡ numbers.old.items ++ more.now }
    ensures count { length numbers.new.items ≡ length numbers.old.items + length more.now }
{
    numbers.try_extend_from_slice(more).unwrap();
}
