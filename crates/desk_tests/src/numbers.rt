//! Marks as their numbers.
ghost use Rattle.std.specs.Prelude.{◌≡◌, [], ◌++◌};
ghost use Rattle.format_table.specs.Layout.{AreNumbers};
ghost use Rattle.desk_tests.specs.Marks.{mark_key, mark_slots, numbers_of};

use crate::Mark;
use format_table::{Numbers, add_numbers};

pub(crate) fn put_mark(mark: &Mark, numbers: &mut Numbers)
    requires { numbers.old.items ≡ [] }
    ensures { numbers.new.items ≡ numbers_of mark.now }
{
    add_numbers(&[i64::from(mark.number), i64::from(mark.amount)], numbers);
}

pub(crate) fn mark_of(numbers: &[i64]) -> Mark
    requires { AreNumbers (mark_key ++ mark_slots) [] numbers.now }
    ensures { numbers_of result ≡ numbers.now }
{
    let [number, amount] = numbers else {
        unreachable!();
    };
    Mark {
        number: *number as u32,
        amount: *amount as u8,
    }
}
