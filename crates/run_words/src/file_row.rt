//! The rows of words that name one file.
ghost use Rattle.std.specs.Prelude.{◌≡◌, ◌∷◌, [], ℕ, List, IfSome, None, map, string_bytes};
ghost use Rattle.run_words.specs.Words.{IsChanges, IsFileRow, IsUpgrade};

use crate::hyphen::is_hyphened;

/// The file of `upgrade FILE`, where the words are this row with nothing in front, and the file doesn't begin with a hyphen.
pub fn upgrade_file(words: &[String]) -> Option<&str>
    ensures file { IfSome result (λ file. IsUpgrade (map string_bytes words.now) file.now) }
    ensures none { result ≡ None → (file : List ℕ) → IsUpgrade (map string_bytes words.now) file → ⊥ }
{
    file_behind("upgrade", words)
}

/// The file of `changes FILE`, where the words are this row with nothing in front, and the file doesn't begin with a hyphen.
pub fn changes_file(words: &[String]) -> Option<&str>
    ensures file { IfSome result (λ file. IsChanges (map string_bytes words.now) file.now) }
    ensures none { result ≡ None → (file : List ℕ) → IsChanges (map string_bytes words.now) file → ⊥ }
{
    file_behind("changes", words)
}

// The file of the row with this name.
fn file_behind<'a>(name: &str, words: &'a [String]) -> Option<&'a str>
    ensures file { IfSome result (λ file. IsFileRow name.now (map string_bytes words.now) file.now) }
    ensures none { result ≡ None → (file : List ℕ) → IsFileRow name.now (map string_bytes words.now) file → ⊥ }
{
    match words {
        [first, file] => named_file(name, first.as_str(), file.as_str()),
        _ => None,
    }
}

// The file behind the first word.
fn named_file<'a>(name: &str, first: &str, file: &'a str) -> Option<&'a str>
    ensures file { IfSome result (λ found. (found.now ≡ file.now) × IsFileRow name.now (first.now ∷ file.now ∷ []) file.now) }
    ensures none { result ≡ None → (other : List ℕ) → IsFileRow name.now (first.now ∷ file.now ∷ []) other → ⊥ }
{
    if first == name && !is_hyphened(file) {
        Some(file)
    } else {
        None
    }
}
