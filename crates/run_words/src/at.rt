//! The stamp in front of a row of words.
ghost use Rattle.std.specs.Prelude.{◌≡◌, ◌≤◌, ℕ, List, IfSome, None, length, map, string_bytes, true};
ghost use Rattle.law_terms.specs.DayText.{IsDayText};
ghost use Rattle.aid_stamps.specs.Clerks.{IsClerk};
ghost use Rattle.aid_stamps.specs.declared.stamp.Stamp.{Stamp as StampData};
ghost use Rattle.run_words.specs.Stamped.{IsStamped, begins_with_at as begins_so};

use aid_stamps::{ClerkName, Stamp};
use law_terms::read_day;

/// The stamp of the words, and the words behind it: `at DAY CLERK` stands in front of them, or nothing does, and then the stamp is
/// the plain one. `None` where `at` stands there with no day, as 2025-09-01, or no clerk's name of 1 to 32 bytes.
pub fn behind_at(words: &[String]) -> Option<(Stamp, &[String])>
    ensures some { IfSome result (λ r. IsStamped (map string_bytes words.now) r.0 (map string_bytes r.1.now)) }
    ensures none { result ≡ None → (stamp : StampData) (rest : List (List ℕ)) → IsStamped (map string_bytes words.now) stamp rest → ⊥ }
    ensures only { (stamp : StampData) (rest : List (List ℕ)) → IsStamped (map string_bytes words.now) stamp rest
        → IfSome result (λ r. (r.0 ≡ stamp) × (map string_bytes r.1.now ≡ rest)) }
{
    if begins_with_at(words) {
        said_in(words)
    } else {
        Some((Stamp::plain(), words))
    }
}

/// Whether the first word is `at`.
pub(crate) fn begins_with_at(words: &[String]) -> bool
    ensures { result ≡ begins_so (map string_bytes words.now) }
{
    match words.split_first() {
        Some((first, _)) => first.as_str() == "at",
        None => false,
    }
}

// The stamp of words that begin with `at`, and the words behind it.
fn said_in(words: &[String]) -> Option<(Stamp, &[String])>
    requires { begins_so (map string_bytes words.now) ≡ true }
    ensures some { IfSome result (λ r. IsStamped (map string_bytes words.now) r.0 (map string_bytes r.1.now)) }
    ensures none { result ≡ None → (stamp : StampData) (rest : List (List ℕ)) → IsStamped (map string_bytes words.now) stamp rest → ⊥ }
{
    match words {
        [_, day, clerk, rest @ ..] => match stamp_of(day.as_str(), clerk.as_str()) {
            Some(stamp) => Some((stamp, rest)),
            None => None,
        },
        _ => None,
    }
}

// The stamp of a day and a clerk.
fn stamp_of(day: &str, clerk: &str) -> Option<Stamp>
    ensures day { IfSome result (λ stamp. IsDayText day.now stamp.day) }
    ensures clerk { IfSome result (λ stamp. stamp.clerk ≡ clerk.now) }
    ensures is_clerk { IfSome result (λ stamp. IsClerk clerk.now) }
    ensures named { IfSome result (λ stamp. 1 ≤ length clerk.now) }
    ensures none { result ≡ None → (day_count : ℕ) → IsDayText day.now day_count → IsClerk clerk.now → 1 ≤ length clerk.now → ⊥ }
{
    if clerk.is_empty() {
        return None;
    }
    let Ok(day) = read_day(day.as_bytes()) else {
        return None;
    };
    let clerk = ClerkName::new(clerk.as_bytes())?;
    Some(Stamp { day, clerk })
}
