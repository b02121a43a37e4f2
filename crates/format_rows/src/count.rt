//! How many fields a row has.
ghost use Rattle.std.specs.Prelude.{◌≡◌, ◌+◌, ◌-◌, ◌≤◌, ◌^◌, ◌<◌, [], ◌++◌, drop, length, map, min, option_map, true};
ghost use Rattle.csv.specs.Records.{fields_of as texts_of};
ghost use Rattle.format_table.specs.Tables.{are_plain};
ghost use Rattle.format_table.specs.Parts.{line_of, slot_of, slots_of};
ghost use Rattle.format_rows.specs.Fields.{are_as_many as are_as_many_of, count_within, fields_counted as fields_counted_by, number_in as number_of_text};

use crate::field::number_in;
use csv::ByteRecord;
use format_table::{Field, Part, fits};

/// Whether a row has as many texts behind its first as an entry of these parts has fields.
pub fn has_fields(words: &[&str], key: &[Part], parts: &[Part], texts: &ByteRecord) -> bool
    requires words { length words.now ≤ 256 }
    requires plain { are_plain (slots_of key.now) ≡ true }
    requires named { 1 ≤ length (texts_of texts.now) }
    ensures { result ≡ are_as_many_of (map (λ word. word.now) words.now) (slots_of key.now ++ slots_of parts.now) (drop 1 (texts_of texts.now)) }
{
    // The kind's name and the key's fields come before the others, and count no rows.
    let before = 1 + key.len();
    before <= texts.len() && are_as_many(words, parts, texts, before)
}

// Whether there are as many texts from a place on as these fields have.
fn are_as_many(words: &[&str], parts: &[Part], texts: &ByteRecord, place: usize) -> bool
    requires words { length words.now ≤ 256 }
    requires within { place ≤ length (texts_of texts.now) }
    ensures { result ≡ are_as_many_of (map (λ word. word.now) words.now) (slots_of parts.now) (drop place (texts_of texts.now)) }
{
    let Some((part, rest)) = parts.split_first() else {
        return texts.len() == place;
    };
    let Some(text) = texts.get(place) else {
        return false;
    };
    let left = texts.len() - place - 1;
    match fields_counted(words, part, text) {
        Some(more) => more <= left && are_as_many(words, rest, texts, place + 1 + more),
        None => rest.len() <= left,
    }
}

// How many fields the rows have that a field's text counts.
fn fields_counted(words: &[&str], part: &Part, text: &[u8]) -> Option<usize>
    requires { length words.now ≤ 256 }
    ensures { result ≡ option_map (λ n. min n (2 ^ 64 - 1)) (fields_counted_by (map (λ word. word.now) words.now) (slot_of part.now).first (slot_of part.now).line text.now) }
{
    if part.first.is_empty() {
        return Some(0);
    }
    let count = count_in(words, &part.field, text)?;
    Some(count.saturating_mul(part.first.len()))
}

// The count of rows that a field's text spells within the field's limit.
fn count_in(words: &[&str], field: &Field, text: &[u8]) -> Option<usize>
    requires { length words.now ≤ 256 }
    ensures { result ≡ count_within (line_of field.now) (number_of_text (map (λ word. word.now) words.now) field.now.form text.now) }
{
    match number_in(words, field.form, text) {
        Ok(count) if fits(&field.limit, &[], count) => Some(count.unsigned_abs() as usize),
        _ => None,
    }
}
