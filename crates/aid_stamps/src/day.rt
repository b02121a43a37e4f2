// The bytes of a day.
ghost use Rattle.std.specs.Prelude.{◌≡◌, ◌≤◌, ℕ, ℤ, pos, neg_ℤ, ◌-ℤ◌, ◌≤ℤ◌, None, IfSome};
ghost use Rattle.aid_stamps.specs.Stamps.{IsDay, day_bytes, day_number};

use aid_types::Day;

// The days since 1970-01-01.
fn number_of(day: Day) -> i32
    ensures value { result ≡ day_number day }
    ensures in_range { IsDay day }
{
    day.0
}

// The day of a number in its range.
fn day_from(number: i32) -> Day
    requires low { neg_ℤ (pos 25567) ≤ℤ number }
    requires high { number ≤ℤ pos 2932896 }
    ensures value { day_number result ≡ number }
    ensures in_range { IsDay result }
{
    Day(number)
}

/// The bytes of a day: the days since 1970-01-01, the least byte first.
pub(crate) fn bytes_of(day: Day) -> [u8; 4]
    ensures value { result ≡ day_bytes day }
    ensures in_range { IsDay day }
{
    number_of(day).to_le_bytes()
}

/// The day of four bytes.
pub(crate) fn day_at(bytes: [u8; 4]) -> Option<Day>
    ensures some { IfSome result (λ day. IsDay day × (bytes ≡ day_bytes day)) }
    ensures none { result ≡ None → (day : ℕ) → IsDay day → bytes ≡ day_bytes day → ⊥ }
{
    let number = i32::from_le_bytes(bytes);
    if number < -25_567 {
        return None;
    }
    if 2_932_896 < number {
        return None;
    }
    Some(day_from(number))
}
