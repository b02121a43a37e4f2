//! The fields of each kind but the book.
ghost use Rattle.std.specs.Prelude.{◌≡◌};
ghost use Rattle.format_kinds.specs.Kinds.{amend_slots, amount_slots, apply_slots, calendar_slots, enroll_slots, key_slots, originate_slots, prior_slots, school_slots, sent_slots, withdraw_slots};
ghost use Rattle.format_table.specs.Parts.{slots_of};

use format_table::Form::{Cents, Count, Day, Flag, I64, U8, U16, U32, U64, Word};
use format_table::{Field, Limit, Part};

// A field that counts nothing.
macro_rules! plain {
    ($field:expr) => {
        Part {
            field: $field,
            first: &[],
            later: &[],
            ends: 0,
        }
    };
}

macro_rules! one {
    ($name:literal, $form:ident: $low:literal to $high:literal) => {
        plain!(Field {
            name: $name,
            form: $form,
            limit: Limit::Between($low, $high),
        })
    };
}

macro_rules! day {
    ($name:literal) => {
        Field {
            name: $name,
            form: Day,
            limit: DAY,
        }
    };
}

const STUDENT: Part = one!("student", U64: 1 to 999_999_999_999);

const YEAR: Part = one!("year", U16: 2_000 to 2_099);

const TERM: Part = one!("term", U8: 1 to 8);

const DAY: Limit = Limit::Between(-25_567, 2_932_896);

const FIRST: Field = day!("first");

const LAST: Field = day!("last");

// The fields of a key: the school, 0 at the office's own desk, and the number.
static KEY: [Part; 2] = [
    one!("school", U32: 0 to 999_999),
    one!("number", U64: 1 to 999_999_999_999),
];

static SCHOOL: [Part; 3] = [
    one!("code", U32: 1 to 999_999),
    one!("terms", U8: 2 to 3),
    one!("full", U8: 1 to 40),
];

static CALENDAR: [Part; 6] = [
    YEAR,
    TERM,
    one!("extra", Flag: 0 to 1),
    plain!(FIRST),
    plain!(LAST),
    Part {
        field: Field {
            name: "breaks",
            form: Count,
            limit: Limit::Between(0, 8),
        },
        first: &[FIRST, LAST],
        later: &[FIRST, LAST],
        ends: 0,
    },
];

static PRIOR: [Part; 2] = [STUDENT, one!("units", U32: 0 to 4_294_967_295)];

static APPLY: [Part; 52] = [
    STUDENT,
    YEAR,
    one!("transaction", U8: 1 to 99),
    one!("birth_year", U16: 1_900 to 2_099),
    one!("region", U8: 0 to 2),
    one!("family", U8: 1 to 30),
    one!("married", Flag: 0 to 1),
    one!("graduate", Flag: 0 to 1),
    one!("bachelor", Flag: 0 to 1),
    one!("veteran", Flag: 0 to 1),
    one!("dependents", Flag: 0 to 1),
    one!("orphan", Flag: 0 to 1),
    one!("ward", Flag: 0 to 1),
    one!("foster", Flag: 0 to 1),
    one!("emancipated", Flag: 0 to 1),
    one!("homeless", Flag: 0 to 1),
    one!("student_file", Flag: 0 to 1),
    one!("agi", I64: -99_999_999 to 99_999_999),
    one!("ira", I64: 0 to 99_999_999),
    one!("interest", I64: 0 to 99_999_999),
    one!("ira_untaxed", I64: 0 to 99_999_999),
    one!("pension", I64: 0 to 99_999_999),
    one!("foreign", I64: 0 to 99_999_999),
    one!("grants", I64: 0 to 99_999_999),
    one!("credits", I64: 0 to 99_999_999),
    one!("work_study", I64: 0 to 99_999_999),
    one!("tax", I64: -99_999_999 to 99_999_999),
    one!("earned_first", I64: 0 to 99_999_999),
    one!("earned_second", I64: 0 to 99_999_999),
    one!("support", I64: 0 to 99_999_999),
    one!("cash", I64: 0 to 99_999_999),
    one!("investments", I64: 0 to 99_999_999),
    one!("business", I64: 0 to 99_999_999),
    one!("parents_married", Flag: 0 to 1),
    one!("parents_file", Flag: 0 to 1),
    one!("parent_age", U8: 0 to 120),
    one!("parent_agi", I64: -99_999_999 to 99_999_999),
    one!("parent_ira", I64: 0 to 99_999_999),
    one!("parent_interest", I64: 0 to 99_999_999),
    one!("parent_ira_untaxed", I64: 0 to 99_999_999),
    one!("parent_pension", I64: 0 to 99_999_999),
    one!("parent_foreign", I64: 0 to 99_999_999),
    one!("parent_grants", I64: 0 to 99_999_999),
    one!("parent_credits", I64: 0 to 99_999_999),
    one!("parent_work_study", I64: 0 to 99_999_999),
    one!("parent_tax", I64: -99_999_999 to 99_999_999),
    one!("parent_earned_first", I64: 0 to 99_999_999),
    one!("parent_earned_second", I64: 0 to 99_999_999),
    one!("parent_support", I64: 0 to 99_999_999),
    one!("parent_cash", I64: 0 to 99_999_999),
    one!("parent_investments", I64: 0 to 99_999_999),
    one!("parent_business", I64: 0 to 99_999_999),
];

static ENROL: [Part; 4] = [STUDENT, YEAR, TERM, one!("credits", U8: 0 to 255)];

static ORIGINATE: [Part; 3] = [STUDENT, YEAR, one!("cost", U32: 0 to 999_999)];

// A payment, a repayment and an adjustment have the same fields.
static AMOUNT: [Part; 5] = [
    STUDENT,
    YEAR,
    TERM,
    one!("program", Word: 0 to 5),
    one!("cents", Cents: 0 to 99_999_999),
];

static WITHDRAW: [Part; 12] = [
    STUDENT,
    YEAR,
    TERM,
    plain!(LAST),
    plain!(day!("determined")),
    one!("charges", Cents: 0 to 99_999_999),
    one!("could_unsub", Cents: 0 to 99_999_999),
    one!("could_sub", Cents: 0 to 99_999_999),
    one!("could_plus", Cents: 0 to 99_999_999),
    one!("could_pell", Cents: 0 to 99_999_999),
    one!("could_fseog", Cents: 0 to 99_999_999),
    one!("could_teach", Cents: 0 to 99_999_999),
];

const REFERENCE: Part = one!("reference", U64: 0 to 999_999_999_999);

static SENT: [Part; 7] = [
    STUDENT,
    YEAR,
    TERM,
    one!("program", Word: 0 to 5),
    one!("cents", Cents: 0 to 99_999_999),
    plain!(day!("day")),
    REFERENCE,
];

static AMEND: [Part; 5] = [
    one!("of_school", U32: 0 to 999_999),
    one!("of_number", U64: 1 to 999_999_999_999),
    one!("change", U8: 1 to 3),
    one!("reason", U8: 1 to 7),
    REFERENCE,
];

/// The fields of a key, which come first in a filing of any kind.
pub fn key_parts() -> &'static [Part]
    ensures { slots_of result.now ≡ key_slots }
{
    &KEY
}

/// The fields of a school.
pub fn school_parts() -> &'static [Part]
    ensures { slots_of result.now ≡ school_slots }
{
    &SCHOOL
}

/// The fields of a calendar.
pub fn calendar_parts() -> &'static [Part]
    ensures { slots_of result.now ≡ calendar_slots }
{
    &CALENDAR
}

/// The fields of prior use.
pub fn prior_parts() -> &'static [Part]
    ensures { slots_of result.now ≡ prior_slots }
{
    &PRIOR
}

/// The fields of an application.
pub fn apply_parts() -> &'static [Part]
    ensures { slots_of result.now ≡ apply_slots }
{
    &APPLY
}

/// The fields of an enrollment.
pub fn enroll_parts() -> &'static [Part]
    ensures { slots_of result.now ≡ enroll_slots }
{
    &ENROL
}

/// The fields of an origination and of a changed cost.
pub fn originate_parts() -> &'static [Part]
    ensures { slots_of result.now ≡ originate_slots }
{
    &ORIGINATE
}

/// The fields of a payment, a repayment and an adjustment.
pub fn amount_parts() -> &'static [Part]
    ensures { slots_of result.now ≡ amount_slots }
{
    &AMOUNT
}

/// The fields of a withdrawal.
pub fn withdraw_parts() -> &'static [Part]
    ensures { slots_of result.now ≡ withdraw_slots }
{
    &WITHDRAW
}

/// The fields of a return that was sent back.
pub fn sent_parts() -> &'static [Part]
    ensures { slots_of result.now ≡ sent_slots }
{
    &SENT
}

/// The fields of a record of a correction.
pub fn amend_parts() -> &'static [Part]
    ensures { slots_of result.now ≡ amend_slots }
{
    &AMEND
}
