//! The text of a number in a field's form.
ghost use Rattle.std.specs.Prelude.{◌≡◌, ◌≤ℤ◌, ◌+ℤ◌, ◌∷◌, ◌++◌, OnOk, neg_ℤ, pos, true, unsigned_abs, [], slice_index_or, codes};
ghost use Rattle.aid_types.specs.Whole.{whole_text};
ghost use Rattle.law_terms.specs.Days.{day_text};
ghost use Rattle.format_kinds.specs.Kinds.{words_of_programs};
ghost use Rattle.format_filings.specs.WrittenRows.{number_text};
ghost use Rattle.format_filings.specs.Spelled.{is_spelled};

use aid_types::{Day, School, Year, put_cents};
use format_kinds::program_words;
use format_table::Form;
use itoa::Buffer;
use law_terms::put_day;
use std::alloc::AllocError;

/// Appends a comma, and the text of a number in a form behind it.
pub(crate) fn put_field(form: Form, number: i64, out: &mut Vec<u8>) -> Result<(), AllocError>
    requires { is_spelled form number ≡ true }
    ensures { OnOk result (out.new.items ≡ out.old.items ++ (codes "," ++ number_text words_of_programs form number)) }
{
    out.push(b',')?;
    put_number(form, number, out)
}

// Appends the text of a number in a form.
fn put_number(form: Form, number: i64, out: &mut Vec<u8>) -> Result<(), AllocError>
    requires { is_spelled form number ≡ true }
    ensures { OnOk result (out.new.items ≡ out.old.items ++ number_text words_of_programs form number) }
{
    match form {
        Form::Cents => put_cents(number.unsigned_abs(), out),
        Form::Day => put_day_number(number, out),
        Form::Word => put_word(number, out),
        Form::U8 | Form::U16 | Form::U32 | Form::U64 | Form::I64 | Form::Flag | Form::Count => {
            put_whole(number, out)
        }
    }
}

// Appends the day of so many days since 1970-01-01.
fn put_day_number(number: i64, out: &mut Vec<u8>) -> Result<(), AllocError>
    requires from { neg_ℤ (pos 25567) ≤ℤ number }
    requires to { number ≤ℤ pos 2932896 }
    ensures { OnOk result (out.new.items ≡ out.old.items ++ day_text (unsigned_abs (number +ℤ pos 25567))) }
{
    put_day(Day(number as i32), out)
}

// Appends the word of the program at a place.
fn put_word(place: i64, out: &mut Vec<u8>) -> Result<(), AllocError>
    requires from { pos 0 ≤ℤ place }
    requires to { place ≤ℤ pos 5 }
    ensures { OnOk result (out.new.items ≡ out.old.items ++ slice_index_or words_of_programs (unsigned_abs place) []) }
{
    let word = program_words()[place as usize];
    out.extend_from_slice(word.as_bytes())
}

// Appends the digits of a whole number.
fn put_whole(number: i64, out: &mut Vec<u8>) -> Result<(), AllocError>
    ensures { OnOk result (out.new.items ≡ out.old.items ++ whole_text number) }
{
    let mut digits = Buffer::new();
    out.extend_from_slice(digits.format(number).as_bytes())
}

/// Appends a comma, and the digits of a number that is not negative behind it.
pub(crate) fn put_natural(number: u64, out: &mut Vec<u8>) -> Result<(), AllocError>
    ensures { OnOk result (out.new.items ≡ out.old.items ++ (codes "," ++ whole_text (pos number))) }
{
    let mut digits = Buffer::new();
    out.push(b',')?;
    out.extend_from_slice(digits.format(number).as_bytes())
}

/// Appends a comma and a school's code.
pub(crate) fn put_school(school: School, out: &mut Vec<u8>) -> Result<(), AllocError>
    ensures { OnOk result (out.new.items ≡ out.old.items ++ (codes "," ++ whole_text (pos school))) }
{
    put_natural(u64::from(school.0), out)
}

/// Appends a comma and a year.
pub(crate) fn put_year(year: Year, out: &mut Vec<u8>) -> Result<(), AllocError>
    ensures { OnOk result (out.new.items ≡ out.old.items ++ (codes "," ++ whole_text (pos year))) }
{
    put_natural(u64::from(year.0), out)
}
