//! The numbers of a book, put in the order in which a book is filed.
ghost use Rattle.std.specs.Prelude.{◌≡◌, ◌≤◌, ◌+◌, ◌++◌, Some, flat_map, length, map};
ghost use Rattle.arrayvec.specs.ArrayVec.{array_vec_len};
ghost use Rattle.format_table.specs.Forms.{most_numbers};
ghost use Rattle.toml.specs.View.{table_view, view};
ghost use Rattle.format_books.specs.Fields.{table_fields};
ghost use Rattle.format_books.specs.Numbers.{added_by, fields_in, numbers_in, row_numbers};
ghost use Rattle.format_books.specs.Reading.{integer_in as integer_of};

use crate::reading::{fields_of, integer_in, items_in, value_at};
use crate::table::{BookField, Holds, fields};
use format_table::Numbers;
use toml::{Table, Value};

// Puts each integer of a list.
fn put_integers(items: &[Value], numbers: &mut Numbers)
    requires { array_vec_len numbers.old + length items.now ≤ most_numbers }
    ensures { numbers.new.items ≡ numbers.old.items ++ map (λ d. integer_of (Some d)) (map view items.now) }
{
    for item in items {
        numbers.push(integer_in(Some(item)));
    }
}

// Puts a row of the table of this name, by its columns.
fn put_row(name: &str, row: &Value, numbers: &mut Numbers)
    requires { array_vec_len numbers.old + length (row_numbers (fields_in name.now table_fields) (view row.now)) ≤ most_numbers }
    ensures { numbers.new.items ≡ numbers.old.items ++ row_numbers (fields_in name.now table_fields) (view row.now) }
{
    let fields = fields();
    for field in fields {
        if field.section == name {
            numbers.push(integer_in(row.get(field.key)));
        }
    }
}

// Puts the rows of a table.
fn put_rows(name: &str, rows: &[Value], numbers: &mut Numbers)
    requires { array_vec_len numbers.old + length (flat_map (row_numbers (fields_in name.now table_fields)) (map view rows.now)) ≤ most_numbers }
    ensures { numbers.new.items ≡ numbers.old.items ++ flat_map (row_numbers (fields_in name.now table_fields)) (map view rows.now) }
{
    for row in rows {
        put_row(name, row, numbers);
    }
}

// Puts what a field adds.
fn put_field(table: &Table, field: &BookField, numbers: &mut Numbers)
    requires { array_vec_len numbers.old + length (added_by field.now.kind field.now.section.now field.now.key.now (table_view table.now)) ≤ most_numbers }
    ensures { numbers.new.items ≡ numbers.old.items ++ added_by field.now.kind field.now.section.now field.now.key.now (table_view table.now) }
{
    let place = value_at(table, field.section, field.key);
    match field.kind {
        Holds::Integer => numbers.push(integer_in(place)),
        Holds::Integers(_) => put_integers(items_in(place), numbers),
        Holds::Tables => {
            let rows = items_in(place);
            numbers.push(rows.len() as i64);
            put_rows(field.key, rows, numbers);
        }
        Holds::Column => (),
    }
}

/// The numbers of a text's fields. A table of a book is its count of rows and then its rows.
pub fn numbers_of_fields(table: &Table) -> Numbers
    requires { length (numbers_in (table_view table.now)) ≤ most_numbers }
    ensures { result.items ≡ numbers_in (table_view table.now) }
{
    let mut numbers = Numbers::new();
    let fields = fields_of(table);
    for field in fields {
        put_field(table, field, &mut numbers);
    }
    numbers
}
