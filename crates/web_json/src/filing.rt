//! The filing of a body.
ghost use Rattle.std.specs.Prelude.{◌≡◌, [], ◌∷◌, true, Some, None, IfErr, IfOk, option_and_then, option_map, pos, reverse};
ghost use Rattle.serde_json.specs.View.{view};
ghost use Rattle.web_json.specs.Drafts.{put_all, put_said};
ghost use Rattle.web_json.specs.Bodies.{fields_of, filing_by_fields, filing_in as filing_in_value, filing_of_body, has_bodies, said};
ghost use Rattle.web_json.specs.Values.{numbers_said};

use crate::error::BodyError;
use crate::members::{put_members, put_number};
use crate::value::{has_members, kind_of_value, value_of};
use aid_filings::Filing;
use aid_types::School;
use format_kinds::{Kind, key_parts, new_draft, table_row};
use format_table::{Draft, MOST_NUMBERS};
use serde_json::Value;
use std::alloc::Global;

/// The filing of a body at a school: one JSON object with `kind`, the key's `number` and each field of the kind under its
/// name, and with no other key. Of a key that is spelt twice the last value stays. Days and programs are strings, as rows
/// have them; all else is a whole number, cents too. `breaks` is an array of arrays of a first and a last day.
pub fn filing_of(alloc: Global, school: School, body: &[u8]) -> Result<Filing, BodyError>
    ensures filing { IfOk result (λ filing. filing_of_body school body.now ≡ Some (said filing)) }
    ensures none { IfErr result (λ e. e ≡ BodyError.NotFiling → filing_of_body school body.now ≡ None) }
{
    let value = value_of(alloc, body)?;
    match filing_in(alloc, school, &value) {
        Some(filing) => Ok(filing),
        None => Err(BodyError::NotFiling),
    }
}

// The filing that a value says.
fn filing_in(alloc: Global, school: School, value: &Value) -> Option<Filing>
    ensures { option_map said result ≡ filing_in_value school (view value.now) }
{
    let kind = kind_of_value(value)?;
    // Beside the kind's fields there are `kind` and the key's number.
    if has_body(kind) && has_members(value, table_row(kind).parts.len() + 2) {
        filing_of_kind(alloc, school, value, kind)
    } else {
        None
    }
}

// A book is a text of its own.
fn has_body(kind: Kind) -> bool
    ensures { result ≡ has_bodies kind }
{
    kind != Kind::Book
}

// The filing of a kind that a value says. It takes no memory.
fn filing_of_kind(alloc: Global, school: School, value: &Value, kind: Kind) -> Option<Filing>
    requires { has_bodies kind ≡ true }
    ensures { option_map said result ≡ filing_by_fields school (view value.now) kind }
{
    let draft = draft_of(school, value, kind)?;
    match format_bytes::filing_of(alloc, kind, draft.numbers()) {
        Ok(filing) => Some(filing),
        Err(_) => unreachable!(),
    }
}

// The numbers of a filing of a kind that a value says.
fn draft_of(school: School, value: &Value, kind: Kind) -> Option<Draft<MOST_NUMBERS>>
    ensures { option_map (λ draft. (kind, reverse draft.earlier)) result ≡ filing_by_fields school (view value.now) kind }
{
    let mut draft = new_draft(kind);
    put_filing(school, value, kind, &mut draft)?;
    if draft.next().is_none() {
        Some(draft)
    } else {
        None
    }
}

// Puts the school's number, which isn't in a value, and those that the value says.
fn put_filing(
    school: School,
    value: &Value,
    kind: Kind,
    draft: &mut Draft<MOST_NUMBERS>,
) -> Option<()>
    ensures { option_map (λ done. draft.new) result
        ≡ option_and_then (put_said (numbers_said (fields_of kind) (view value.now))) (put_all (pos school ∷ []) draft.old) }
{
    put_number(i64::from(school.0), draft)?;
    let (_, number) = key_parts().split_first()?;
    put_members(number, value, draft)?;
    put_members(table_row(kind).parts, value, draft)
}
