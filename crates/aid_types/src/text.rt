//! The texts of numbers.
ghost use Rattle.std.specs.Prelude.{◌≡◌, ℕ, ◌+◌, ◌*◌, ◌^◌, ◌-◌, ◌<◌, ◌≤◌, ◌≢◌, ◌↔◌, ◌⊎◌, ℤ, ◌<ℤ◌, ◌≤ℤ◌, IsTrue, min, option_map, OnOk, OnErr, ◌++◌};
ghost use Rattle.std.specs.Char.{is_ascii_digit};
ghost use Rattle.std.specs.List.{list_all};
ghost use Rattle.std.specs.Str.Parse.{digits_value};
ghost use Rattle.aid_types.specs.Whole.{whole_text, is_natural as is_natural_of, natural_of, whole_of, whole_between, clamped};
ghost use Rattle.aid_types.specs.Cents.{cents_text, fraction_of, cents_of, cents_up_to};

use std::alloc::AllocError;

/// Why a text is no number that is asked for.
#[derive(Clone, Copy, PartialEq, Eq)]
pub enum Malformed {
    /// The text is no number's spelling.
    Spelling,
    /// It is the spelling of a number that is too small or too large.
    Range,
}

/// The greatest amount that a text may spell, in cents.
const MOST_CENTS: u64 = 99_999_999;

/// The whole number that `text` spells, of `low` to `high`: decimal digits without a leading zero, and a `-` before them
/// where it is below zero.
pub fn read_whole(text: &[u8], low: i64, high: i64) -> Result<i64, Malformed>
    ensures value { result ≡ whole_between low high (whole_of text.now) }
    ensures ok { (z : ℤ) → (result ≡ Ok z) ↔ ((text.now ≡ whole_text z) × (low ≤ℤ z) × (z ≤ℤ high)) }

    // A number of any length is well spelled.
    ensures range { (result ≡ Err Malformed.Range)
        ↔ ((z : ℤ) × (text.now ≡ whole_text z) × ((z <ℤ low) ⊎ (high <ℤ z))) }
    ensures spelling { (result ≡ Err Malformed.Spelling) ↔ ((z : ℤ) → text.now ≢ whole_text z) }
{
    between(whole(text), low, high)
}

/// The cents that `text` spells, up to 99,999,999: whole dollars without a leading zero, a point, two digits.
pub fn read_cents(text: &[u8]) -> Result<u64, Malformed>
    ensures value { result ≡ cents_up_to 99999999 (cents_of text.now) }
    ensures ok { (n : ℕ) → (result ≡ Ok n) ↔ ((text.now ≡ cents_text n) × (n ≤ 99999999)) }

    // An amount of any length is well spelled.
    ensures range { (result ≡ Err Malformed.Range) ↔ ((n : ℕ) × (text.now ≡ cents_text n) × (99999999 < n)) }
    ensures spelling { (result ≡ Err Malformed.Spelling) ↔ ((n : ℕ) → text.now ≢ cents_text n) }
{
    up_to(MOST_CENTS, cents(text))
}

/// Appends the spelling of an amount. After an error the vector is as before.
pub fn put_cents(cents: u64, out: &mut Vec<u8>) -> Result<(), AllocError>
    ensures ok { OnOk result (out.new.items ≡ out.old.items ++ cents_text cents) }
    ensures err { OnErr result (out.new.items ≡ out.old.items) }
{
    let mut text = [0; 24];
    text[21] = b'.';
    text[22] = b'0' + (cents / 10 % 10) as u8;
    text[23] = b'0' + (cents % 10) as u8;
    let start = itoa::write_digits(cents / 100, &mut text, 21);
    out.extend_from_slice(&text[start..])
}

// A number that was read, in its range.
fn between(whole: Option<i128>, low: i64, high: i64) -> Result<i64, Malformed>
    ensures { result ≡ whole_between low high whole }
{
    match whole {
        None => Err(Malformed::Spelling),
        Some(whole) => {
            if i128::from(low) <= whole && whole <= i128::from(high) {
                Ok(whole as i64)
            } else {
                Err(Malformed::Range)
            }
        }
    }
}

// The number that a text spells, or one past every range where its size passes 64 bits.
fn whole(text: &[u8]) -> Option<i128>
    ensures { result ≡ option_map clamped (whole_of text.now) }
{
    match text {
        [b'-', digits @ ..] => match magnitude(digits)? {
            0 => None,
            size => Some(-i128::from(size)),
        },
        _ => Some(i128::from(magnitude(text)?)),
    }
}

// An amount that was read, where it is at most so much.
fn up_to(most: u64, cents: Option<u64>) -> Result<u64, Malformed>
    ensures { result ≡ cents_up_to most cents }
{
    match cents {
        None => Err(Malformed::Spelling),
        Some(cents) => {
            if cents <= most {
                Ok(cents)
            } else {
                Err(Malformed::Range)
            }
        }
    }
}

// The cents that a text spells, or the greatest `u64` where they are more.
fn cents(text: &[u8]) -> Option<u64>
    ensures { result ≡ option_map (λ n. min n u64.MAX) (cents_of text.now) }
{
    let point = text.len().saturating_sub(3);
    let dollars = magnitude(&text[..point])?;
    let part = fraction(&text[point..])?;
    Some(dollars.saturating_mul(100).saturating_add(part))
}

// The number that digits spell, or the greatest `u64` where it is greater.
fn magnitude(text: &[u8]) -> Option<u64>
    ensures { result ≡ option_map (λ n. min n u64.MAX) (natural_of text.now) }
{
    if is_natural(text) {
        Some(value(text))
    } else {
        None
    }
}

// Whether a text is digits, and no zero before others.
fn is_natural(text: &[u8]) -> bool
    ensures { result ≡ is_natural_of text.now }
{
    match text {
        [] | [b'0', _, ..] => false,
        _ => are_digits(text),
    }
}

fn are_digits(text: &[u8]) -> bool
    ensures { result ≡ list_all is_ascii_digit text.now }
{
    text.iter().all(|c| c.is_ascii_digit())
}

fn value(digits: &[u8]) -> u64
    requires { IsTrue (list_all is_ascii_digit digits.now) }
    ensures { result ≡ min (digits_value 10 digits.now) u64.MAX }
{
    let mut value: u64 = 0;
    for digit in digits {
        value = value
            .saturating_mul(10)
            .saturating_add(u64::from(*digit - b'0'));
    }
    value
}

// The cents that a point and two digits spell.
fn fraction(text: &[u8]) -> Option<u64>
    ensures { result ≡ fraction_of text.now }
{
    match text {
        [b'.', tens, ones] if tens.is_ascii_digit() && ones.is_ascii_digit() => {
            Some(10 * u64::from(tens - b'0') + u64::from(ones - b'0'))
        }
        _ => None,
    }
}
