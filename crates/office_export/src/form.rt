//! The form of a line.
ghost use Rattle.std.specs.Prelude.{◌≡◌, ◌==◌, ℕ, List, [], ◌∷◌, ◌++◌, IfSome, codes, option_map, pos};
ghost use Rattle.std.specs.List.{slice_split};
ghost use Rattle.aid_types.specs.Whole.{whole_between, whole_of};
ghost use Rattle.office_export.specs.Forms.{form_of as form_of_line, form_of_end, form_of_filing, form_of_standing, form_of_student, form_of_words as form_by_words};
ghost use Rattle.office_export.specs.Lines.{line_of};
ghost use Rattle.office_export.specs.Said.{HasDigits, said};

use crate::words::{are_digits, cut, is_end, is_row, student_in, year_in};
use aid_types::{Student, Year};

/// What a line tells, whether or not that is so.
#[derive(Clone, Copy)]
pub enum LineForm<'a> {
    /// A filing under its stamp, in digits of lower case.
    Filing(&'a [u8]),
    /// Where a student stands in a year.
    Standing(Student, Year),
    /// How many filings and standings there are, and the seal of the filings.
    End,
}

/// The form of a line, which is its words and a line feed. `None` says that it has none.
pub fn form_of(line: &[u8]) -> Option<LineForm<'_>>
    ensures form { option_map said result ≡ form_of_line line.now }
    // A filing's line has its digits behind the word.
    ensures digits { IfSome result (HasDigits line.now) }
{
    let [front @ .., b'\n'] = line else {
        return None;
    };
    form_of_words(front)
}

// The form of a line by its words, which stand before its line feed.
fn form_of_words(front: &[u8]) -> Option<LineForm<'_>>
    ensures form { option_map said result ≡ form_by_words (slice_split (λ b. b == 32) front.now) }
    ensures digits { IfSome result (HasDigits (front.now ++ 10 ∷ [])) }
{
    let (word, words) = cut(front);
    if word == b"filing".as_slice() {
        filing_form(words?)
    } else if word == b"standing".as_slice() {
        standing_form(words?)
    } else if word == b"end".as_slice() {
        end_form(words?)
    } else {
        None
    }
}

// The form of a filing's line, by the words behind the first.
fn filing_form(words: &[u8]) -> Option<LineForm<'_>>
    ensures form { option_map said result ≡ form_of_filing (slice_split (λ b. b == 32) words.now) }
    ensures digits { IfSome result (HasDigits (line_of (codes "filing" ∷ words.now ∷ []))) }
{
    let (digits, rest) = cut(words);
    if rest.is_some() {
        return None;
    }
    if are_digits(digits) {
        Some(LineForm::Filing(digits))
    } else {
        None
    }
}

// The form of a standing's line, by the words behind the first.
fn standing_form(words: &[u8]) -> Option<LineForm<'_>>
    ensures form { option_map said result ≡ form_of_standing (slice_split (λ b. b == 32) words.now) }
    ensures other { (line : List ℕ) → IfSome result (HasDigits line) }
{
    let (student, rest) = cut(words);
    let (year, rest) = cut(rest?);
    let (transaction, rest) = cut(rest?);
    let (formula, rest) = cut(rest?);
    let (sai, rest) = cut(rest?);
    let (way, rest) = cut(rest?);
    let (scheduled, rest) = cut(rest?);
    let (paid, rest) = cut(rest?);
    let (used, rest) = cut(rest?);
    if rest.is_some() {
        return None;
    }
    if is_row(transaction, formula, sai, way, scheduled, paid, used) {
        student_form(student, year)
    } else {
        None
    }
}

// The form of the line of a student and a year.
fn student_form<'a>(student: &[u8], year: &[u8]) -> Option<LineForm<'a>>
    ensures form { option_map said result
        ≡ form_of_student (whole_between (pos 1) (pos 999999999999) (whole_of student.now)) (whole_between (pos 2000) (pos 2099) (whole_of year.now)) }
    ensures other { (line : List ℕ) → IfSome result (HasDigits line) }
{
    let student = student_in(student)?;
    let year = year_in(year)?;
    Some(LineForm::Standing(student, year))
}

// The form of the last line, by the words behind the first.
fn end_form(words: &[u8]) -> Option<LineForm<'_>>
    ensures form { option_map said result ≡ form_of_end (slice_split (λ b. b == 32) words.now) }
    ensures other { (line : List ℕ) → IfSome result (HasDigits line) }
{
    let (filings, rest) = cut(words);
    let (standings, rest) = cut(rest?);
    let (seal, rest) = cut(rest?);
    if rest.is_some() {
        return None;
    }
    if is_end(filings, standings, seal) {
        Some(LineForm::End)
    } else {
        None
    }
}
