//! The words of a line.
ghost use Rattle.std.specs.Prelude.{◌≡◌, ◌≤ℤ◌, ◌∷◌, ◌++◌, [], ◌==◌, ◌&&◌, pos, IfSome, IfNone};
ghost use Rattle.std.specs.List.{list_all, slice_split};
ghost use Rattle.std.specs.Option.{option_map_or};
ghost use Rattle.aid_types.specs.Whole.{whole_between, whole_of};
ghost use Rattle.office_export.specs.Forms.{are_digits as are_digits_of, is_amount as is_amount_of, is_digit as is_digit_of, is_formula as is_formula_of, is_seal as is_seal_of, is_way as is_way_of, is_whole as is_whole_of};
ghost use Rattle.office_export.specs.Said.{is_spelled as is_spelled_by, number_of};

use aid_types::{Malformed, Student, Year, read_cents, read_whole};

/// What stands before the first blank, and what stands behind it where there is one.
pub(crate) fn cut(text: &[u8]) -> (&[u8], Option<&[u8]>)
    ensures words { slice_split (λ b. b == 32) text.now
        ≡ result.0.now ∷ option_map_or (λ rest. slice_split (λ b. b == 32) rest.now) result.1 [] }
    ensures whole { IfSome result.1 (λ rest. text.now ≡ result.0.now ++ 32 ∷ rest.now) }
    ensures only { IfNone result.1 (text.now ≡ result.0.now) }
{
    for (at, byte) in text.iter().enumerate() {
        if *byte == b' ' {
            return (&text[..at], Some(&text[at + 1..]));
        }
    }
    (text, None)
}

fn is_digit(byte: u8) -> bool
    ensures { result ≡ is_digit_of byte }
{
    matches!(byte, b'0'..=b'9' | b'a'..=b'f')
}

/// Whether a text is two digits of lower case for each byte.
pub(crate) fn are_digits(text: &[u8]) -> bool
    ensures { result ≡ are_digits_of text.now }
{
    text.len() % 2 == 0 && are_all_digits(text)
}

fn are_all_digits(text: &[u8]) -> bool
    ensures { result ≡ list_all is_digit_of text.now }
{
    text.iter().all(|byte| is_digit(*byte))
}

// Whether a text that was read is a number's or an amount's spelling, of whatever size.
fn is_spelled<T: Copy>(read: Result<T, Malformed>) -> bool
    ensures { result ≡ is_spelled_by read }
{
    match read {
        Ok(_) | Err(Malformed::Range) => true,
        Err(Malformed::Spelling) => false,
    }
}

// Whether a text is a whole number, of any size.
fn is_whole(text: &[u8]) -> bool
    ensures { result ≡ is_whole_of text.now }
{
    is_spelled(read_whole(text, 0, 0))
}

// Whether a text is an amount, of any size.
fn is_amount(text: &[u8]) -> bool
    ensures { result ≡ is_amount_of text.now }
{
    is_spelled(read_cents(text))
}

// Whether a text names a formula.
fn is_formula(text: &[u8]) -> bool
    ensures { result ≡ is_formula_of text.now }
{
    matches!(text, b"A" | b"B" | b"C")
}

// Whether a text names a way to an award.
fn is_way(text: &[u8]) -> bool
    ensures { result ≡ is_way_of text.now }
{
    text == b"maximum".as_slice()
        || text == b"calculated".as_slice()
        || text == b"minimum".as_slice()
        || text == b"nothing".as_slice()
}

/// Whether texts tell where a student stands, in the order of the columns.
pub(crate) fn is_row(
    transaction: &[u8],
    formula: &[u8],
    sai: &[u8],
    way: &[u8],
    scheduled: &[u8],
    paid: &[u8],
    used: &[u8],
) -> bool
    ensures { result ≡ (is_whole_of transaction.now && (is_formula_of formula.now && (is_whole_of sai.now && (is_way_of way.now
        && (is_whole_of scheduled.now && (is_amount_of paid.now && is_whole_of used.now)))))) }
{
    is_whole(transaction)
        && is_formula(formula)
        && is_whole(sai)
        && is_way(way)
        && is_whole(scheduled)
        && is_amount(paid)
        && is_whole(used)
}

/// Whether two texts are whole numbers, of any size, and the third the 64 digits of a seal.
pub(crate) fn is_end(filings: &[u8], standings: &[u8], seal: &[u8]) -> bool
    ensures { result ≡ (is_whole_of filings.now && (is_whole_of standings.now && is_seal_of seal.now)) }
{
    is_whole(filings) && is_whole(standings) && is_seal(seal)
}

/// Whether a text is the 64 digits of a seal.
pub fn is_seal(text: &[u8]) -> bool
    ensures { result ≡ is_seal_of text.now }
{
    text.len() == 64 && are_all_digits(text)
}

/// The student whose number a text is.
pub(crate) fn student_in(text: &[u8]) -> Option<Student>
    ensures { result ≡ number_of (whole_between (pos 1) (pos 999999999999) (whole_of text.now)) }
{
    Some(Student(number_in(text, 1, 999_999_999_999)?))
}

/// The year that a text tells.
pub(crate) fn year_in(text: &[u8]) -> Option<Year>
    ensures { result ≡ number_of (whole_between (pos 2000) (pos 2099) (whole_of text.now)) }
{
    Some(Year(number_in(text, 2000, 2099)? as u16))
}

// The number that a text spells, where it is from `low` to `high`.
fn number_in(text: &[u8], low: i64, high: i64) -> Option<u64>
    requires { pos 0 ≤ℤ low }
    ensures value { result ≡ number_of (whole_between low high (whole_of text.now)) }
    ensures in_range { IfSome result (λ n. (low ≤ℤ pos n) × (pos n ≤ℤ high)) }
{
    match read_whole(text, low, high) {
        Ok(number) => Some(number.unsigned_abs()),
        Err(_) => None,
    }
}
