//! The table of marks.
ghost use Rattle.std.specs.Prelude.{◌≡◌, [], bytes_eq, refl};
ghost use Rattle.format_table.specs.Parts.{slots_of};
ghost use Rattle.desk_tests.specs.MarkLaws.{one_mark};
ghost use Rattle.desk_tests.specs.Marks.{code_of as code_of_mark, mark_key, mark_kinds, mark_slots, numbers_of as numbers_of_mark};

use crate::Mark;
use crate::numbers::{mark_of, put_mark};
use format_table::{EntryCodec, Field, Form, KindTable, Limit, Numbers, Part, TableRow};

macro_rules! one {
    ($name:literal, $form:ident: $low:literal to $high:literal) => {
        Part {
            field: Field {
                name: $name,
                form: Form::$form,
                limit: Limit::Between($low, $high),
            },
            first: &[],
            later: &[],
            ends: 0,
        }
    };
}

static KEY: [Part; 1] = [one!("number", U32: 1 to 999_999)];

static MARK: [Part; 1] = [one!("amount", U8: 0 to 200)];

static NO_WORDS: [&str; 0] = [];

fn key_parts() -> &'static [Part]
    ensures { slots_of result.now ≡ mark_key }
{
    &KEY
}

fn mark_parts() -> &'static [Part]
    ensures { slots_of result.now ≡ mark_slots }
{
    &MARK
}

fn is_word(word: &str, text: &[u8]) -> bool
    ensures { result ≡ bytes_eq word.now text.now }
{
    word.as_bytes() == text
}

/// The table of marks, and their rules.
#[derive(Drop)]
pub struct Marks;

impl KindTable for Marks {
    ghost key = { mark_key };

    ghost kinds = { mark_kinds };

    ghost words = { [] };

    ghost sound = { refl };

    ghost plain = { refl };

    ghost few_words = { refl };

    fn key_parts() -> &'static [Part] {
        key_parts()
    }

    fn row(code: u8) -> Option<TableRow> {
        match code {
            1 => Some(TableRow {
                code: 1,
                name: "mark",
                parts: mark_parts(),
            }),
            _ => None,
        }
    }

    fn named(name: &[u8]) -> Option<TableRow> {
        if is_word("mark", name) {
            Marks::row(1)
        } else {
            None
        }
    }

    fn words() -> &'static [&'static str] {
        &NO_WORDS
    }
}

impl EntryCodec for Marks {
    type Entry = Mark;

    ghost code_of = { code_of_mark };

    ghost numbers_of = { numbers_of_mark };

    ghost one = { one_mark };

    fn code(_entry: &Mark) -> u8 {
        1
    }

    fn numbers(entry: &Mark) -> Numbers {
        let mut numbers = Numbers::new();
        put_mark(entry, &mut numbers);
        numbers
    }

    fn entry(code: u8, numbers: &[i64]) -> Mark {
        match code {
            1 => mark_of(numbers),
            _ => unreachable!(),
        }
    }
}
