//! The table of the kinds.
ghost use Rattle.std.specs.Prelude.{◌≡◌, bytes_eq, refl};
ghost use Rattle.format_kinds.specs.Kinds.{key_slots};
ghost use Rattle.loans.specs.Kinds.{loan_kinds, loan_words as words_of_loans};

use crate::parts::{before_parts, borrower_parts, limits_parts, loan_parts, loan_words};
use format_kinds::key_parts as filing_key;
use format_table::{KindTable, Part, TableRow};

macro_rules! row {
    ($code:literal, $name:literal: $parts:expr) => {
        Some(TableRow {
            code: $code,
            name: $name,
            parts: $parts,
        })
    };
}

/// The table of loan filings, whose key is that of the aid office's filings.
pub struct Loans;

impl KindTable for Loans {
    ghost key = { key_slots };

    ghost kinds = { loan_kinds };

    ghost words = { words_of_loans };

    ghost sound = { refl };

    ghost plain = { refl };

    ghost few_words = { refl };

    fn key_parts() -> &'static [Part] {
        filing_key()
    }

    fn row(code: u8) -> Option<TableRow> {
        match code {
            101 => row!(101, "limits": limits_parts()),
            102 => row!(102, "borrower": borrower_parts()),
            103 => row!(103, "before": before_parts()),
            104 => row!(104, "lend": loan_parts()),
            105 => row!(105, "cancel": loan_parts()),
            _ => None,
        }
    }

    fn named(name: &[u8]) -> Option<TableRow> {
        if is_word("limits", name) {
            Loans::row(101)
        } else if is_word("borrower", name) {
            Loans::row(102)
        } else if is_word("before", name) {
            Loans::row(103)
        } else if is_word("lend", name) {
            Loans::row(104)
        } else if is_word("cancel", name) {
            Loans::row(105)
        } else {
            None
        }
    }

    fn words() -> &'static [&'static str] {
        loan_words()
    }
}

// Whether a text is a word.
fn is_word(word: &str, text: &[u8]) -> bool
    ensures { result ≡ bytes_eq word.now text.now }
{
    word.as_bytes() == text
}
