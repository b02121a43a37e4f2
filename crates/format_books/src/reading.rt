//! What a text gives at the fields of a book, and the first error of its fields.
ghost use Rattle.std.specs.Prelude.{◌≡◌, ◌⊎◌, ◌∷◌, [], None, Some, IfErr, IfOk, is_some, length, map, option_map, pos};
ghost use Rattle.std.specs.List.{list_all};
ghost use Rattle.toml.specs.Data.{as_integer, as_table, get, get_member};
ghost use Rattle.toml.specs.View.{table_view, view};
ghost use Rattle.format_table.specs.Limits.{is_between as goes_between};
ghost use Rattle.format_books.specs.Fields.{field_line};
ghost use Rattle.format_books.specs.Ranges.{greatest};
ghost use Rattle.format_books.specs.Reading.{field_error, fields_error, fields_of as fields_of_text, first_fault, has_kind, has_range, integer_in as integer_of, is_form_2 as is_of_form_2, items_in as items_of, limit, member_at, places_error, rows_of, table_of};

use crate::error::BookError;
use crate::ranges::{Highest, range};
use crate::table::{BookField, Holds, fields_by_form};
use std::alloc::Global;
use toml::{Table, Value};

/// The text's TOML table.
pub fn table_in(alloc: Global, text: &[u8]) -> Result<Table, BookError>
    ensures table { IfOk result (λ t. table_of text.now ≡ Some (table_view t)) }
    ensures none { IfErr result (λ e. (e ≡ BookError.NoMemory) ⊎ ((e ≡ BookError.NotToml) × (table_of text.now ≡ None))) }
{
    match toml::table_from_slice(alloc, text) {
        Ok(table) => Ok(table),
        Err(error) => {
            if error.is_memory() {
                Err(BookError::NoMemory)
            } else {
                Err(BookError::NotToml)
            }
        }
    }
}

// What stands at a key of the top.
fn member<'t>(table: &'t Table, key: &str) -> Option<&'t Value>
    ensures { option_map (λ v. view v.now) result ≡ get_member key.now (table_view table.now) }
{
    table.get(key)
}

/// What stands at a key of the top, or of a section.
pub fn value_at<'t>(table: &'t Table, section: &str, key: &str) -> Option<&'t Value>
    ensures { option_map (λ v. view v.now) result ≡ member_at section.now key.now (table_view table.now) }
{
    if section.is_empty() {
        return member(table, key);
    }
    match member(table, section) {
        Some(value) => value.get(key),
        None => None,
    }
}

/// The items of the array at a place, or none where no array stands there.
pub fn items_in<'v>(place: Option<&'v Value>) -> &'v [Value]
    ensures { map view result.now ≡ items_of (option_map (λ v. view v.now) place.entry) }
{
    let Some(value) = place else {
        return &[];
    };
    match value.as_array() {
        Some(array) => array.as_slice(),
        None => &[],
    }
}

/// The rows of the array at a key of the top.
pub fn rows<'t>(table: &'t Table, key: &str) -> &'t [Value]
    ensures { map view result.now ≡ rows_of key.now (table_view table.now) }
{
    items_in(member(table, key))
}

/// The integer at a place, or 0 where none stands there.
pub fn integer_in(place: Option<&Value>) -> i64
    ensures { result ≡ integer_of (option_map (λ v. view v.now) place.entry) }
{
    match place {
        Some(value) => value.as_integer().unwrap_or(0),
        None => 0,
    }
}

// Whether some values are all integers.
fn are_integers(items: &[Value]) -> bool
    ensures { result ≡ list_all (λ v. is_some (as_integer (view v))) items.now }
{
    items.iter().all(|item| item.as_integer().is_some())
}

// Whether they are all tables.
fn are_tables(items: &[Value]) -> bool
    ensures { result ≡ list_all (λ v. is_some (as_table (view v))) items.now }
{
    items.iter().all(|item| item.as_table().is_some())
}

// Whether what stands at a place is of the kind.
fn is_of_kind(kind: Holds, place: Option<&Value>) -> bool
    ensures { result ≡ has_kind kind (option_map (λ v. view v.now) place.entry) }
{
    let Some(value) = place else {
        return false;
    };
    let items = items_in(Some(value));
    match kind {
        Holds::Integer | Holds::Column => value.as_integer().is_some(),
        Holds::Integers(count) => {
            value.as_array().is_some() && (items.len() == count && are_integers(items))
        }
        Holds::Tables => value.as_array().is_some() && are_tables(items),
    }
}

// Whether a number goes from low to high.
fn is_between(low: i64, high: i64, number: i64) -> bool
    ensures { result ≡ goes_between low high number }
{
    low <= number && number <= high
}

// Whether all of some integers do.
fn are_between(low: i64, high: i64, items: &[Value]) -> bool
    ensures { result ≡ list_all (λ v. goes_between low high (integer_of (Some (view v)))) items.now }
{
    items
        .iter()
        .all(|item| is_between(low, high, integer_in(Some(item))))
}

// Whether the numbers at a place of the kind do.
fn is_in_range(low: i64, high: i64, kind: Holds, place: Option<&Value>) -> bool
    ensures { result ≡ has_range low high kind (option_map (λ v. view v.now) place.entry) }
{
    match kind {
        Holds::Integer | Holds::Column => is_between(low, high, integer_in(place)),
        Holds::Integers(_) => are_between(low, high, items_in(place)),
        Holds::Tables => is_between(low, high, items_in(place).len() as i64),
    }
}

// The greatest number of a field in a section.
fn greatest_in(table: &Table, section: &str, high: Highest) -> i64
    ensures { result ≡ limit (greatest high) section.now (table_view table.now) }
{
    match high {
        Highest::Number(number) => number,
        Highest::Key(key) => integer_in(value_at(table, section, key)),
    }
}

// The error of a field, by whether it is there, of its kind and in its range.
fn fault(field: u16, is_there: bool, is_of_kind: bool, is_in_range: bool) -> Option<BookError>
    ensures { result ≡ first_fault field is_there is_of_kind is_in_range }
{
    if !is_there {
        Some(BookError::Missing(field))
    } else if !is_of_kind {
        Some(BookError::WrongKind(field))
    } else if !is_in_range {
        Some(BookError::OutOfRange(field))
    } else {
        None
    }
}

// Whether a key stands in each row.
fn in_each(rows: &[Value], key: &str) -> bool
    ensures { result ≡ list_all (λ v. is_some (get key.now (view v))) rows.now }
{
    rows.iter().all(|row| row.get(key).is_some())
}

// Whether an integer stands at it in each row.
fn is_column(rows: &[Value], key: &str) -> bool
    ensures { result ≡ list_all (λ v. has_kind Holds.Column (get key.now (view v))) rows.now }
{
    rows.iter()
        .all(|row| is_of_kind(Holds::Column, row.get(key)))
}

// Whether each of these goes from low to high.
fn column_goes_between(low: i64, high: i64, rows: &[Value], key: &str) -> bool
    ensures { result ≡ list_all (λ v. has_range low high Holds.Column (get key.now (view v))) rows.now }
{
    rows.iter()
        .all(|row| is_in_range(low, high, Holds::Column, row.get(key)))
}

// The error of a column whose numbers go from low to high.
fn error_of_column(rows: &[Value], field: &BookField, low: i64, high: i64) -> Option<BookError>
    ensures { result ≡ places_error field.now.number Holds.Column low high (map (get field.now.key.now) (map view rows.now)) }
{
    fault(
        field.number,
        in_each(rows, field.key),
        is_column(rows, field.key),
        column_goes_between(low, high, rows, field.key),
    )
}

// The error of what stands at one place.
fn error_of_place(
    place: Option<&Value>,
    field: &BookField,
    low: i64,
    high: i64,
) -> Option<BookError>
    ensures { result ≡ places_error field.now.number field.now.kind low high (option_map (λ v. view v.now) place.entry ∷ []) }
{
    fault(
        field.number,
        place.is_some(),
        is_of_kind(field.kind, place),
        is_in_range(low, high, field.kind, place),
    )
}

// What is wrong with a field, if anything is.
fn error_of_field(table: &Table, field: &BookField) -> Option<BookError>
    ensures { result ≡ field_error (field_line field.now) (table_view table.now) }
{
    let range = range(field.name);
    let low = range.low;
    let high = greatest_in(table, field.section, range.high);
    match field.kind {
        Holds::Column => error_of_column(rows(table, field.section), field, low, high),
        _ => error_of_place(value_at(table, field.section, field.key), field, low, high),
    }
}

/// Whether the integer 2 stands under `form`.
pub fn is_form_2(table: &Table) -> bool
    ensures { result ≡ is_of_form_2 (table_view table.now) }
{
    integer_in(value_at(table, "", "form")) == 2
}

/// The fields of a text: all of them in form 2, and else the first 55.
pub fn fields_of(table: &Table) -> &'static [BookField]
    ensures { map field_line result.now ≡ fields_of_text (table_view table.now) }
{
    fields_by_form(is_form_2(table))
}

/// The first error of a text's fields.
pub fn error_of_fields(table: &Table) -> Option<BookError>
    ensures { result ≡ fields_error (table_view table.now) }
{
    let fields = fields_of(table);
    for field in fields {
        if let Some(error) = error_of_field(table, field) {
            return Some(error);
        }
    }
    None
}
