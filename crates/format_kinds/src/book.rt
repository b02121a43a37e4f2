//! The fields of a book, which are the numbers of its sections and tables in order.
ghost use Rattle.std.specs.Prelude.{◌≡◌};
ghost use Rattle.format_kinds.specs.Kinds.{book_slots};
ghost use Rattle.format_table.specs.Parts.{slots_of};

use format_table::Form::{Count, I64};
use format_table::{Field, Limit, Part};

macro_rules! number {
    ($name:literal: $limit:expr) => {
        Field {
            name: $name,
            form: I64,
            limit: $limit,
        }
    };
}

macro_rules! one {
    ($name:literal: $limit:expr) => {
        Part {
            field: number!($name: $limit),
            first: &[],
            later: &[],
            ends: 0,
        }
    };
}

macro_rules! table {
    ($name:literal, $most:literal: $first:expr, $later:expr) => {
        Part {
            field: Field {
                name: $name,
                form: Count,
                limit: Limit::Between(1, $most),
            },
            first: &$first,
            later: &$later,
            ends: 0,
        }
    };
}

const AMOUNT: Limit = Limit::Between(0, 99_999_999);

const RATE: Limit = Limit::Between(0, 10_000);

const PERCENT: Limit = Limit::Between(1, 9_999);

const FLOOR: Limit = Limit::Between(-999_999, 0);

const ZERO: Limit = Limit::Between(0, 0);

const ABOVE: Limit = Limit::AboveRow(99_999_999);

const CONTINUES: Limit = Limit::Continues(99_999_999);

// The first row of `business` is at 0 with 0.
const BUSINESS_FIRST: [Field; 3] = [
    number!("business.over": ZERO),
    number!("business.base": ZERO),
    number!("business.rate": RATE),
];

// Each later row begins above the one before it, with the value that that one has there.
const BUSINESS_LATER: [Field; 3] = [
    number!("business.over": ABOVE),
    number!("business.base": CONTINUES),
    number!("business.rate": RATE),
];

// The first row of `age` is at 0.
const AGE_FIRST: [Field; 3] = [
    number!("age.from": ZERO),
    number!("age.single": AMOUNT),
    number!("age.married": AMOUNT),
];

// Each later row begins at a greater age.
const AGE_LATER: [Field; 3] = [
    number!("age.from": Limit::AboveRow(120)),
    number!("age.single": AMOUNT),
    number!("age.married": AMOUNT),
];

// The first row of `bracket` begins with what the first rate gives there.
const BRACKET_FIRST: [Field; 3] = [
    number!("bracket.over": AMOUNT),
    number!("bracket.base": Limit::Begins(99_999_999)),
    number!("bracket.rate": RATE),
];

// Each later row goes on from the one before it.
const BRACKET_LATER: [Field; 3] = [
    number!("bracket.over": ABOVE),
    number!("bracket.base": CONTINUES),
    number!("bracket.rate": RATE),
];

// The fields of a book in the order of its bytes. A list of amounts is so many fields of its name, and a table is its count
// of rows and then its rows. The ceiling stands in form 2 alone.
static BOOK: [Part; 80] = [
    Part {
        field: number!("form": Limit::Between(1, 2)),
        first: &[],
        later: &[],
        ends: 1,
    },
    one!("year": Limit::Between(2_000, 2_099)),
    one!("pell.maximum": Limit::Between(1, 99_999)),
    one!("pell.minimum": Limit::UpToLast(1)),
    one!("percent.maximum_single": PERCENT),
    one!("percent.maximum_other": PERCENT),
    one!("percent.minimum_dependent_single": PERCENT),
    one!("percent.minimum_dependent_other": PERCENT),
    one!("percent.minimum_single_parent": PERCENT),
    one!("percent.minimum_parent": PERCENT),
    one!("percent.minimum_no_dependents": PERCENT),
    one!("poverty.contiguous": AMOUNT),
    one!("poverty.contiguous": AMOUNT),
    one!("poverty.contiguous": AMOUNT),
    one!("poverty.contiguous": AMOUNT),
    one!("poverty.contiguous": AMOUNT),
    one!("poverty.contiguous": AMOUNT),
    one!("poverty.contiguous": AMOUNT),
    one!("poverty.contiguous": AMOUNT),
    one!("poverty.contiguous_extra": AMOUNT),
    one!("poverty.alaska": AMOUNT),
    one!("poverty.alaska": AMOUNT),
    one!("poverty.alaska": AMOUNT),
    one!("poverty.alaska": AMOUNT),
    one!("poverty.alaska": AMOUNT),
    one!("poverty.alaska": AMOUNT),
    one!("poverty.alaska": AMOUNT),
    one!("poverty.alaska": AMOUNT),
    one!("poverty.alaska_extra": AMOUNT),
    one!("poverty.hawaii": AMOUNT),
    one!("poverty.hawaii": AMOUNT),
    one!("poverty.hawaii": AMOUNT),
    one!("poverty.hawaii": AMOUNT),
    one!("poverty.hawaii": AMOUNT),
    one!("poverty.hawaii": AMOUNT),
    one!("poverty.hawaii": AMOUNT),
    one!("poverty.hawaii": AMOUNT),
    one!("poverty.hawaii_extra": AMOUNT),
    one!("payroll.oasdi_cap": AMOUNT),
    one!("payroll.oasdi_rate": RATE),
    one!("payroll.medicare_rate": RATE),
    one!("payroll.medicare_high": RATE),
    one!("payroll.threshold_single": AMOUNT),
    one!("payroll.threshold_married": AMOUNT),
    one!("protection.parents": AMOUNT),
    one!("protection.parents": AMOUNT),
    one!("protection.parents": AMOUNT),
    one!("protection.parents": AMOUNT),
    one!("protection.parents": AMOUNT),
    one!("protection.parents_extra": AMOUNT),
    one!("protection.dependent_student": AMOUNT),
    one!("protection.single_student": AMOUNT),
    one!("protection.married_student": AMOUNT),
    one!("protection.single_parent": AMOUNT),
    one!("protection.single_parent": AMOUNT),
    one!("protection.single_parent": AMOUNT),
    one!("protection.single_parent": AMOUNT),
    one!("protection.single_parent": AMOUNT),
    one!("protection.single_parent_extra": AMOUNT),
    one!("protection.married_parent": AMOUNT),
    one!("protection.married_parent": AMOUNT),
    one!("protection.married_parent": AMOUNT),
    one!("protection.married_parent": AMOUNT),
    one!("protection.married_parent": AMOUNT),
    one!("protection.married_parent_extra": AMOUNT),
    one!("employment.cap": AMOUNT),
    one!("employment.rate": RATE),
    one!("assets.parents_rate": RATE),
    one!("assets.dependent_rate": RATE),
    one!("assets.no_dependents_rate": RATE),
    one!("assets.with_dependents_rate": RATE),
    table!("business", 16: BUSINESS_FIRST, BUSINESS_LATER),
    table!("age", 64: AGE_FIRST, AGE_LATER),
    one!("schedule.low_at": FLOOR),
    one!("schedule.low": FLOOR),
    one!("schedule.first_rate": RATE),
    one!("schedule.student_rate": RATE),
    one!("schedule.lowest_student": FLOOR),
    table!("bracket", 16: BRACKET_FIRST, BRACKET_LATER),
    one!("ceiling.percent": PERCENT),
];

/// The fields of a book.
pub fn book_parts() -> &'static [Part]
    ensures { slots_of result.now ≡ book_slots }
{
    &BOOK
}
