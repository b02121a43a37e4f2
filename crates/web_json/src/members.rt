//! The numbers of a value's members, in the order of a kind's fields.
ghost use Rattle.std.specs.Prelude.{◌≡◌, [], ◌∷◌, map, option_map};
ghost use Rattle.serde_json.specs.View.{view};
ghost use Rattle.format_table.specs.Parts.{lines_of, slot_of, slots_of};
ghost use Rattle.web_json.specs.Drafts.{put_all, put_said};
ghost use Rattle.web_json.specs.Values.{member_said, numbers_said, row_said, rows_said, table_said};

use crate::number::number_in;
use format_table::{Draft, Field, MOST_NUMBERS, Part};
use serde_json::Value;

/// Puts the numbers of these fields behind the others, each field by the member of its name, where there are such numbers
/// and they are within their limits.
pub fn put_members(parts: &[Part], value: &Value, draft: &mut Draft<MOST_NUMBERS>) -> Option<()>
    ensures { option_map (λ done. draft.new) result ≡ put_said (numbers_said (slots_of parts.now) (view value.now)) draft.old }
{
    for part in parts {
        put_member(part, value.get(part.field.name)?, draft)?;
    }
    Some(())
}

// The numbers of one field's value.
fn put_member(part: &Part, value: &Value, draft: &mut Draft<MOST_NUMBERS>) -> Option<()>
    ensures { option_map (λ done. draft.new) result
        ≡ put_said (member_said (slot_of part.now).first (slot_of part.now).line.form (view value.now)) draft.old }
{
    if part.first.is_empty() {
        return put_number(number_in(part.field.form, value)?, draft);
    }
    let rows = value.as_array()?;
    put_table(part.first, rows, draft)
}

// The count of rows, and the numbers of each.
fn put_table(columns: &[Field], rows: &[Value], draft: &mut Draft<MOST_NUMBERS>) -> Option<()>
    ensures { option_map (λ done. draft.new) result
        ≡ put_said (table_said (lines_of columns.now) (map view rows.now)) draft.old }
{
    put_number(rows.len() as i64, draft)?;
    for row in rows {
        let values = row.as_array()?;
        put_row(columns, values, draft)?;
    }
    Some(())
}

// The numbers of one row.
fn put_row(columns: &[Field], values: &[Value], draft: &mut Draft<MOST_NUMBERS>) -> Option<()>
    ensures { option_map (λ done. draft.new) result
        ≡ put_said (row_said (lines_of columns.now) (map view values.now)) draft.old }
{
    let mut rest = values;
    for column in columns {
        let (value, more) = rest.split_first()?;
        put_number(number_in(column.form, value)?, draft)?;
        rest = more;
    }
    if rest.is_empty() { Some(()) } else { None }
}

/// Puts a number behind the others, where it is within its limit.
pub fn put_number(number: i64, draft: &mut Draft<MOST_NUMBERS>) -> Option<()>
    ensures { option_map (λ done. draft.new) result ≡ put_all (number ∷ []) draft.old }
{
    if draft.push(number) { Some(()) } else { None }
}
