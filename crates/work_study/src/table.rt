//! The table of the kinds.
ghost use Rattle.std.specs.Prelude.{◌≡◌, [], bytes_eq, refl};
ghost use Rattle.format_table.specs.Parts.{slots_of};
ghost use Rattle.format_kinds.specs.Kinds.{key_slots};
ghost use Rattle.work_study.specs.Kinds.{dollar_slots, earn_slots, fund_slots, work_kinds};

use format_kinds::key_parts as filing_key;
use format_table::{Field, Form, KindTable, Limit, Part, TableRow};

macro_rules! one {
    ($name:literal, $form:ident: $low:literal to $high:literal) => {
        Part {
            field: Field {
                name: $name,
                form: Form::$form,
                limit: Limit::Between($low, $high),
            },
            first: &[],
            later: &[],
            ends: 0,
        }
    };
}

macro_rules! row {
    ($code:literal, $name:literal: $parts:expr) => {
        Some(TableRow {
            code: $code,
            name: $name,
            parts: $parts,
        })
    };
}

const STUDENT: Part = one!("student", U64: 1 to 999_999_999_999);

const YEAR: Part = one!("year", U16: 2_000 to 2_099);

static FUND: [Part; 2] = [YEAR, one!("dollars", U32: 0 to 9_999_999)];

// An award and a release have the same fields.
static DOLLARS: [Part; 3] = [STUDENT, YEAR, one!("dollars", U32: 0 to 9_999)];

static EARN: [Part; 4] = [
    STUDENT,
    YEAR,
    one!("minutes", U32: 0 to 60_000),
    one!("wage", U32: 0 to 100_000),
];

static NO_WORDS: [&str; 0] = [];

fn fund_parts() -> &'static [Part]
    ensures { slots_of result.now ≡ fund_slots }
{
    &FUND
}

fn dollar_parts() -> &'static [Part]
    ensures { slots_of result.now ≡ dollar_slots }
{
    &DOLLARS
}

fn earn_parts() -> &'static [Part]
    ensures { slots_of result.now ≡ earn_slots }
{
    &EARN
}

/// The table of work-study filings, whose key is that of the aid office's filings, and their rules.
pub struct WorkStudy;

impl KindTable for WorkStudy {
    ghost key = { key_slots };

    ghost kinds = { work_kinds };

    ghost words = { [] };

    ghost sound = { refl };

    ghost plain = { refl };

    ghost few_words = { refl };

    fn key_parts() -> &'static [Part] {
        filing_key()
    }

    fn row(code: u8) -> Option<TableRow> {
        match code {
            201 => row!(201, "fund": fund_parts()),
            202 => row!(202, "award": dollar_parts()),
            203 => row!(203, "earn": earn_parts()),
            204 => row!(204, "release": dollar_parts()),
            _ => None,
        }
    }

    fn named(name: &[u8]) -> Option<TableRow> {
        if is_word("fund", name) {
            WorkStudy::row(201)
        } else if is_word("award", name) {
            WorkStudy::row(202)
        } else if is_word("earn", name) {
            WorkStudy::row(203)
        } else if is_word("release", name) {
            WorkStudy::row(204)
        } else {
            None
        }
    }

    fn words() -> &'static [&'static str] {
        &NO_WORDS
    }
}

// Whether a text is a word.
fn is_word(word: &str, text: &[u8]) -> bool
    ensures { result ≡ bytes_eq word.now text.now }
{
    word.as_bytes() == text
}
