//! Numbers at the end of a line.
ghost use Rattle.std.specs.Prelude.{◌≡◌, ◌+◌, ◌<◌, ◌≤◌, [], ◌∷◌, ◌++◌, decimal};
ghost use Rattle.arrayvec.specs.ArrayString.{array_string_len};
ghost use Rattle.aid_types.specs.Cents.{cents_text};

use arrayvec::ArrayString;
use itoa::Buffer;

/// Appends a number of at most ten digits.
pub fn push_count(line: &mut ArrayString<160>, number: u32)
    requires room { array_string_len line.old + 10 ≤ 160 }
    ensures bytes { line.new.bytes ≡ line.old.bytes ++ decimal number }
    ensures len { array_string_len line.new ≤ array_string_len line.old + 10 }
{
    let mut digits = Buffer::new();
    line.push_str(digits.format(number));
}

/// Appends a number of at most twenty digits.
pub fn push_number(line: &mut ArrayString<160>, number: u64)
    requires room { array_string_len line.old + 20 ≤ 160 }
    ensures bytes { line.new.bytes ≡ line.old.bytes ++ decimal number }
    ensures len { array_string_len line.new ≤ array_string_len line.old + 20 }
{
    let mut digits = Buffer::new();
    line.push_str(digits.format(number));
}

/// Appends an amount in cents, as dollars with two decimals.
pub fn push_cents(line: &mut ArrayString<160>, cents: u64)
    requires room { array_string_len line.old + 23 ≤ 160 }
    ensures bytes { line.new.bytes ≡ line.old.bytes ++ cents_text cents }
    ensures len { array_string_len line.new ≤ array_string_len line.old + 23 }
{
    push_number(line, cents / 100);
    line.push_str(".");
    push_digit(line, (cents / 10 % 10) as u8);
    push_digit(line, (cents % 10) as u8);
}

// Appends a digit.
fn push_digit(line: &mut ArrayString<160>, digit: u8)
    requires digit { digit < 10 }
    requires room { array_string_len line.old + 1 ≤ 160 }
    ensures bytes { line.new.bytes ≡ line.old.bytes ++ (48 + digit) ∷ [] }
    ensures len { array_string_len line.new ≡ array_string_len line.old + 1 }
{
    line.push(char::from(b'0' + digit));
}
