//! The fields of a year book, once for all that goes over them.
ghost use Rattle.std.specs.Prelude.{◌≡◌, map};
ghost use Rattle.format_books.specs.Fields.{field_line, table_fields};
ghost use Rattle.format_books.specs.Filed.{AreFiled};
ghost use Rattle.format_books.specs.Reading.{fields_in_form};

/// What stands at a field.
#[derive(Clone, Copy)]
pub enum Holds {
    /// An integer.
    Integer,
    /// A list of so many integers.
    Integers(usize),
    /// An array of tables: the number of the field is how many they are.
    Tables,
    /// A column of an array of tables: an integer in each of them.
    Column,
}

/// A field: its number, where it stands, and what stands there.
#[derive(Clone, Copy)]
pub struct BookField {
    /// 1 to 56.
    pub number: u16,
    /// The section, or the array of tables, that it stands in; empty at the top.
    pub section: &'static str,
    /// The key in it.
    pub key: &'static str,
    /// Its name in the table of kinds: the key behind its section.
    pub name: &'static str,
    /// What stands there.
    pub kind: Holds,
}

// A field at the top.
macro_rules! top {
    ($number:literal, $key:literal: $kind:expr) => {
        BookField {
            number: $number,
            section: "",
            key: $key,
            name: $key,
            kind: $kind,
        }
    };
}

// A field in a section, or a column.
macro_rules! field {
    ($number:literal, $section:literal, $key:literal: $kind:expr) => {
        BookField {
            number: $number,
            section: $section,
            key: $key,
            name: concat!($section, ".", $key),
            kind: $kind,
        }
    };
}

use Holds::{Column, Integer, Integers, Tables};

static FIELDS: [BookField; 56] = [
    top!(1, "form": Integer),
    top!(2, "year": Integer),
    field!(3, "pell", "maximum": Integer),
    field!(4, "pell", "minimum": Integer),
    field!(5, "percent", "maximum_single": Integer),
    field!(6, "percent", "maximum_other": Integer),
    field!(7, "percent", "minimum_dependent_single": Integer),
    field!(8, "percent", "minimum_dependent_other": Integer),
    field!(9, "percent", "minimum_single_parent": Integer),
    field!(10, "percent", "minimum_parent": Integer),
    field!(11, "percent", "minimum_no_dependents": Integer),
    field!(12, "poverty", "contiguous": Integers(8)),
    field!(13, "poverty", "contiguous_extra": Integer),
    field!(14, "poverty", "alaska": Integers(8)),
    field!(15, "poverty", "alaska_extra": Integer),
    field!(16, "poverty", "hawaii": Integers(8)),
    field!(17, "poverty", "hawaii_extra": Integer),
    field!(18, "payroll", "oasdi_cap": Integer),
    field!(19, "payroll", "oasdi_rate": Integer),
    field!(20, "payroll", "medicare_rate": Integer),
    field!(21, "payroll", "medicare_high": Integer),
    field!(22, "payroll", "threshold_single": Integer),
    field!(23, "payroll", "threshold_married": Integer),
    field!(24, "protection", "parents": Integers(5)),
    field!(25, "protection", "parents_extra": Integer),
    field!(26, "protection", "dependent_student": Integer),
    field!(27, "protection", "single_student": Integer),
    field!(28, "protection", "married_student": Integer),
    field!(29, "protection", "single_parent": Integers(5)),
    field!(30, "protection", "single_parent_extra": Integer),
    field!(31, "protection", "married_parent": Integers(5)),
    field!(32, "protection", "married_parent_extra": Integer),
    field!(33, "employment", "cap": Integer),
    field!(34, "employment", "rate": Integer),
    field!(35, "assets", "parents_rate": Integer),
    field!(36, "assets", "dependent_rate": Integer),
    field!(37, "assets", "no_dependents_rate": Integer),
    field!(38, "assets", "with_dependents_rate": Integer),
    top!(39, "business": Tables),
    field!(40, "business", "over": Column),
    field!(41, "business", "base": Column),
    field!(42, "business", "rate": Column),
    top!(43, "age": Tables),
    field!(44, "age", "from": Column),
    field!(45, "age", "single": Column),
    field!(46, "age", "married": Column),
    field!(47, "schedule", "low_at": Integer),
    field!(48, "schedule", "low": Integer),
    field!(49, "schedule", "first_rate": Integer),
    field!(50, "schedule", "student_rate": Integer),
    field!(51, "schedule", "lowest_student": Integer),
    top!(52, "bracket": Tables),
    field!(53, "bracket", "over": Column),
    field!(54, "bracket", "base": Column),
    field!(55, "bracket", "rate": Column),
    field!(56, "ceiling", "percent": Integer),
];

/// The fields 1 to 56, in order.
pub fn fields() -> &'static [BookField]
    ensures { map field_line result.now ≡ table_fields }
{
    &FIELDS
}

/// The fields of a text of form 2, or of any other.
#[tactic(auto, unfolding(crate::specs::Reading::fields_in_form))]
pub fn fields_by_form(is_form_2: bool) -> &'static [BookField]
    ensures { map field_line result.now ≡ fields_in_form is_form_2 }
{
    if is_form_2 { &FIELDS } else { &FIELDS[..55] }
}

/// Says that the fields have the names and the ranges of the table of kinds, in its order. It computes nothing.
pub fn fields_are_filed()
    ensures { AreFiled table_fields }
{}
