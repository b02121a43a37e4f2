//! The row of words that corrects a journal.
ghost use Rattle.std.specs.Prelude.{◌≡◌, ◌∷◌, [], ℕ, List, IfSome, None, map, string_bytes};
ghost use Rattle.aid_stamps.specs.declared.stamp.Stamp.{Stamp as StampData};
ghost use Rattle.run_words.specs.Stamped.{IsAmend, IsAmendRow};

use crate::at::{begins_with_at, behind_at};
use crate::hyphen::is_hyphened;
use crate::number::number_in;
use aid_stamps::Stamp;

/// The stamp, the file and the number of `at DAY CLERK amend FILE NUMBER`, where the words are this row.
pub fn amend_request(words: &[String]) -> Option<(Stamp, &str, u64)>
    ensures some { IfSome result (λ r. IsAmend (map string_bytes words.now) r.0 r.1.now r.2) }
    ensures none { result ≡ None → (stamp : StampData) (file : List ℕ) (number : ℕ) → IsAmend (map string_bytes words.now) stamp file number → ⊥ }
{
    if !begins_with_at(words) {
        return None;
    }
    let Some((stamp, rest)) = behind_at(words) else {
        return None;
    };
    let (file, number) = row_behind(rest)?;
    Some((stamp, file, number))
}

// The file and the number of the words behind the stamp.
fn row_behind(words: &[String]) -> Option<(&str, u64)>
    ensures some { IfSome result (λ r. IsAmendRow (map string_bytes words.now) r.0.now r.1) }
    ensures none { result ≡ None → (file : List ℕ) (number : ℕ) → IsAmendRow (map string_bytes words.now) file number → ⊥ }
{
    match words {
        [name, file, number] => row_of_three(name.as_str(), file.as_str(), number.as_str()),
        _ => None,
    }
}

// The file and the number of three words.
fn row_of_three<'a>(name: &str, file: &'a str, number: &str) -> Option<(&'a str, u64)>
    ensures some { IfSome result (λ r. (r.0.now ≡ file.now) × IsAmendRow (name.now ∷ file.now ∷ number.now ∷ []) file.now r.1) }
    ensures none { result ≡ None → (other : List ℕ) (n : ℕ) → IsAmendRow (name.now ∷ file.now ∷ number.now ∷ []) other n → ⊥ }
{
    if name != "amend" || is_hyphened(file) {
        return None;
    }
    let number = number_in(number, 1, 999_000_000_000)?;
    Some((file, number))
}
