//! The keys of a text that a book of its form does not have.
ghost use Rattle.std.specs.Prelude.{◌≡◌, ◌&&◌, IfOk, bytes_eq, fold, flat_map, map, option_map};
ghost use Rattle.std.specs.List.{list_any};
ghost use Rattle.toml.specs.View.{table_view, view};
ghost use Rattle.format_books.specs.Unknown.{dotted, is_key, is_section, keep_lesser, lesser, names_of, unknown_at, unknown_in, unknown_inside, unknown_key, unknown_keys, unknown_names};

use crate::reading::{is_form_2, items_in};
use crate::table::{BookField, fields_by_form};
use std::alloc::{AllocError, Global};
use std::cmp::Ordering;
use toml::{Table, Value};

// Whether one of some fields stands in a section of this name.
fn is_section_of(fields: &[BookField], name: &str) -> bool
    ensures { result ≡ list_any (λ f. bytes_eq f.section.now name.now) fields.now }
{
    fields.iter().any(|field| field.section == name)
}

// Whether a book of this form has a section, or an array of tables, of this name.
fn has_section(is_form_2: bool, name: &str) -> bool
    ensures { result ≡ is_section is_form_2 name.now }
{
    if name.is_empty() {
        return false;
    }
    is_section_of(fields_by_form(is_form_2), name)
}

// Whether one of some fields stands at this key of the section, or of the top.
fn is_key_of(fields: &[BookField], section: &str, key: &str) -> bool
    ensures { result ≡ list_any (λ f. bytes_eq f.section.now section.now && bytes_eq f.key.now key.now) fields.now }
{
    fields
        .iter()
        .any(|field| field.section == section && field.key == key)
}

// Whether it has this key in the section, or at the top.
fn has_key(is_form_2: bool, section: &str, key: &str) -> bool
    ensures { result ≡ is_key is_form_2 section.now key.now }
{
    is_key_of(fields_by_form(is_form_2), section, key)
}

// The bytes of a name.
fn bytes_of(alloc: Global, name: &str) -> Result<Vec<u8>, AllocError>
    ensures { IfOk result (λ v. v.items ≡ name.now) }
{
    let mut bytes = Vec::new(alloc);
    bytes.extend_from_slice(name.as_bytes())?;
    Ok(bytes)
}

// The bytes of a key behind its section.
fn dotted_name(alloc: Global, section: &str, key: &str) -> Result<Vec<u8>, AllocError>
    ensures { IfOk result (λ v. v.items ≡ dotted section.now key.now) }
{
    let mut bytes = bytes_of(alloc, section)?;
    bytes.push(b'.')?;
    bytes.extend_from_slice(key.as_bytes())?;
    Ok(bytes)
}

// The lesser of two names.
fn lesser_of(least: Vec<u8>, name: Vec<u8>) -> Vec<u8>
    ensures { result.items ≡ lesser least.items name.items }
{
    match name.as_slice().cmp(least.as_slice()) {
        Ordering::Less => name,
        Ordering::Equal => least,
        Ordering::Greater => least,
    }
}

// The least name so far, with one more.
fn kept(least: Option<Vec<u8>>, name: Vec<u8>) -> Option<Vec<u8>>
    ensures { option_map (λ v. v.items) result ≡ keep_lesser (option_map (λ v. v.items) least) name.items }
{
    match least {
        Some(least) => Some(lesser_of(least, name)),
        None => Some(name),
    }
}

// The least name so far, with the unknown keys of a table in the section.
fn least_in_table(
    alloc: Global,
    is_form_2: bool,
    section: &str,
    table: &Table,
    before: Option<Vec<u8>>,
) -> Result<Option<Vec<u8>>, AllocError>
    ensures { IfOk result (λ o. option_map (λ v. v.items) o ≡ fold keep_lesser (option_map (λ v. v.items) before) (unknown_keys is_form_2 section.now (names_of (table_view table.now)))) }
{
    let mut least = before;
    for key in table.keys() {
        if has_key(is_form_2, section, key) {
            continue;
        }
        let name = dotted_name(alloc, section, key)?;
        least = kept(least, name);
    }
    Ok(least)
}

// The same, if a value is a table.
fn least_in_value(
    alloc: Global,
    is_form_2: bool,
    section: &str,
    value: &Value,
    before: Option<Vec<u8>>,
) -> Result<Option<Vec<u8>>, AllocError>
    ensures { IfOk result (λ o. option_map (λ v. v.items) o ≡ fold keep_lesser (option_map (λ v. v.items) before) (unknown_in is_form_2 section.now (view value.now))) }
{
    match value.as_table() {
        Some(table) => least_in_table(alloc, is_form_2, section, table, before),
        None => Ok(before),
    }
}

// The same of each of some values.
fn least_in_rows(
    alloc: Global,
    is_form_2: bool,
    section: &str,
    rows: &[Value],
    before: Option<Vec<u8>>,
) -> Result<Option<Vec<u8>>, AllocError>
    ensures { IfOk result (λ o. option_map (λ v. v.items) o ≡ fold keep_lesser (option_map (λ v. v.items) before) (flat_map (unknown_in is_form_2 section.now) (map view rows.now))) }
{
    let mut least = before;
    for row in rows {
        least = least_in_value(alloc, is_form_2, section, row, least)?;
    }
    Ok(least)
}

// The least name so far, with the unknown keys inside what stands at a section or an array of tables.
fn least_inside(
    alloc: Global,
    is_form_2: bool,
    section: &str,
    value: &Value,
    before: Option<Vec<u8>>,
) -> Result<Option<Vec<u8>>, AllocError>
    ensures { IfOk result (λ o. option_map (λ v. v.items) o ≡ fold keep_lesser (option_map (λ v. v.items) before) (unknown_inside is_form_2 section.now (view value.now))) }
{
    let least = least_in_value(alloc, is_form_2, section, value, before)?;
    least_in_rows(alloc, is_form_2, section, items_in(Some(value)), least)
}

// The least name so far, with the unknown keys at a name of the top.
fn least_at(
    alloc: Global,
    is_form_2: bool,
    name: &str,
    value: &Value,
    before: Option<Vec<u8>>,
) -> Result<Option<Vec<u8>>, AllocError>
    ensures { IfOk result (λ o. option_map (λ v. v.items) o ≡ fold keep_lesser (option_map (λ v. v.items) before) (unknown_at is_form_2 name.now (view value.now))) }
{
    if has_section(is_form_2, name) {
        return least_inside(alloc, is_form_2, name, value, before);
    }
    if has_key(is_form_2, "", name) {
        return Ok(before);
    }
    let name = bytes_of(alloc, name)?;
    Ok(kept(before, name))
}

/// The least unknown key of a text's table.
pub fn least_unknown(alloc: Global, table: &Table) -> Result<Option<Vec<u8>>, AllocError>
    ensures { IfOk result (λ o. option_map (λ v. v.items) o ≡ unknown_key (table_view table.now)) }
{
    let is_form_2 = is_form_2(table);
    let mut least = None;
    for (name, value) in table {
        least = least_at(alloc, is_form_2, name, value, least)?;
    }
    Ok(least)
}
