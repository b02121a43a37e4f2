//! The fields of each kind of loan filing.
ghost use Rattle.std.specs.Prelude.{◌≡◌, map};
ghost use Rattle.format_table.specs.Parts.{slots_of};
ghost use Rattle.loans.specs.Kinds.{before_slots, borrower_slots, limits_slots, loan_slots, loan_words as words_of_loans};

use format_table::Form::{Cents, Flag, U8, U16, U32, U64, Word};
use format_table::{Field, Limit, Part};

macro_rules! one {
    ($name:literal, $form:ident: $low:literal to $high:literal) => {
        Part {
            field: Field {
                name: $name,
                form: $form,
                limit: Limit::Between($low, $high),
            },
            first: &[],
            later: &[],
            ends: 0,
        }
    };
}

macro_rules! dollars {
    ($name:literal) => {
        one!($name, U32: 0 to 999_999)
    };
}

const STUDENT: Part = one!("student", U64: 1 to 999_999_999_999);

const YEAR: Part = one!("year", U16: 2_000 to 2_099);

static LIMITS: [Part; 17] = [
    YEAR,
    dollars!("sub_1"),
    dollars!("sub_2"),
    dollars!("sub_3"),
    dollars!("sub_4"),
    dollars!("dependent_1"),
    dollars!("dependent_2"),
    dollars!("dependent_3"),
    dollars!("independent_1"),
    dollars!("independent_2"),
    dollars!("independent_3"),
    dollars!("graduate"),
    dollars!("aggregate_sub_1"),
    dollars!("aggregate_sub_2"),
    dollars!("aggregate_1"),
    dollars!("aggregate_2"),
    dollars!("aggregate_3"),
];

static BORROWER: [Part; 7] = [
    STUDENT,
    YEAR,
    one!("transaction", U8: 1 to 99),
    one!("level", U8: 1 to 4),
    one!("independent", Flag: 0 to 1),
    dollars!("need"),
    dollars!("cost"),
];

static BEFORE: [Part; 3] = [STUDENT, dollars!("sub"), dollars!("total")];

// A loan and a cancellation have the same fields.
static LOAN: [Part; 4] = [
    STUDENT,
    YEAR,
    one!("program", Word: 0 to 1),
    one!("cents", Cents: 0 to 99_999_999),
];

static LOAN_WORDS: [&str; 2] = ["unsub", "sub"];

/// The fields of the limits of a year.
pub(crate) fn limits_parts() -> &'static [Part]
    ensures { slots_of result.now ≡ limits_slots }
{
    &LIMITS
}

/// The fields of a borrower's record.
pub(crate) fn borrower_parts() -> &'static [Part]
    ensures { slots_of result.now ≡ borrower_slots }
{
    &BORROWER
}

/// The fields of what was borrowed before.
pub(crate) fn before_parts() -> &'static [Part]
    ensures { slots_of result.now ≡ before_slots }
{
    &BEFORE
}

/// The fields of a loan and of a cancellation.
pub(crate) fn loan_parts() -> &'static [Part]
    ensures { slots_of result.now ≡ loan_slots }
{
    &LOAN
}

/// The words of a loan's program, by its place.
pub(crate) fn loan_words() -> &'static [&'static str]
    ensures { map (λ word. word.now) result.now ≡ words_of_loans }
{
    &LOAN_WORDS
}
