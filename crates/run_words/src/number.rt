//! The number that a word spells.
ghost use Rattle.std.specs.Prelude.{◌≡◌, ◌≢◌, ◌^◌, ◌<◌, ℕ, IfSome, decimal};
ghost use Rattle.aid_types.specs.Ranges.{IsBetween};

use aid_types::read_whole;

/// The number whose one spelling the word is, where it is from `low` to `high`.
pub fn number_in(word: &str, low: u64, high: u64) -> Option<u64>
    requires low_in_range { low < 2 ^ 63 }
    requires high_in_range { high < 2 ^ 63 }
    ensures spelled { IfSome result (λ n. word.now ≡ decimal n) }
    ensures in_range { IfSome result (λ n. IsBetween low high n) }
    ensures none { result ≡ None → (n : ℕ) → IsBetween low high n → word.now ≢ decimal n }
{
    match read_whole(word.as_bytes(), low as i64, high as i64) {
        Ok(number) => Some(number as u64),
        Err(_) => None,
    }
}
