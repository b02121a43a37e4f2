//! Words that begin with a hyphen.
ghost use Rattle.std.specs.Prelude.{◌≡◌, not, string_bytes};
ghost use Rattle.std.specs.List.{list_all};
ghost use Rattle.run_words.specs.Words.{begins_with_hyphen};

/// Whether the word begins with a hyphen.
pub(crate) fn is_hyphened(word: &str) -> bool
    ensures { result ≡ begins_with_hyphen word.now }
{
    match word.as_bytes().first() {
        Some(letter) => *letter == b'-',
        None => false,
    }
}

/// Whether no word begins with a hyphen.
pub fn are_plain(words: &[String]) -> bool
    ensures { result ≡ list_all (λ word. not (begins_with_hyphen (string_bytes word))) words.now }
{
    words.iter().all(|word| !is_hyphened(word.as_str()))
}
