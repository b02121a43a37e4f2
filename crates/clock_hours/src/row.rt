//! Rows about clock-hour programs.
ghost use Rattle.std.specs.Prelude.{◌≡◌, ◌≤◌, bytes_eq, length, map};
ghost use Rattle.aid_types.specs.Ranges.{EachIsCents};
ghost use Rattle.csv.specs.Records.{field_at, fields_of};
ghost use Rattle.format_rows.specs.Meanings.{said_of};
ghost use Rattle.clock_hours.specs.Fields.{size as size_of};
ghost use Rattle.clock_hours.specs.Rows.{amount_at as amount_in_field, clock_meaning, pay_fields as fields_of_pay, pay_row as pay_row_of, returned as returned_of, withdraw_row as withdraw_row_of, withdrawal as withdrawal_of, withdrawal_fields as fields_of_withdrawal};

use crate::answer::ClockAnswer;
use crate::field::{Field, cents_at, judge, refused, whole_at};
use crate::hours::{clock_pay, clock_sheet};
use csv::ByteRecord;
use format_rows::{Cause, RowError, RowReader};
use law_r2t4::Lines;
use std::alloc::{AllocError, Global};

/// Rows about clock-hour programs, each of which gives its answer.
pub struct ClockForm;

impl RowReader for ClockForm {
    type Entry = ClockAnswer;

    type Said = ClockAnswer;

    ghost meaning = { clock_meaning };

    ghost said = { λ answer. answer };

    fn read(
        _alloc: Global,
        row: u32,
        texts: &ByteRecord,
    ) -> Result<Result<ClockAnswer, RowError>, AllocError> {
        Ok(answer_of(row, texts))
    }
}

// The answer to a row, by the kind that its first field names.
fn answer_of(row: u32, texts: &ByteRecord) -> Result<ClockAnswer, RowError>
    ensures { result ≡ clock_meaning row (fields_of texts.now) }
{
    let Some(kind) = texts.get(0) else {
        return Err(refused(row, 1, Cause::UnknownKind));
    };
    if is_word("pay", kind) {
        pay_row(row, texts)
    } else if is_word("withdraw", kind) {
        withdraw_row(row, texts)
    } else {
        Err(refused(row, 1, Cause::UnknownKind))
    }
}

fn is_word(word: &str, text: &[u8]) -> bool
    ensures { result ≡ bytes_eq text.now word.now }
{
    text == word.as_bytes()
}

// The payment of a payment period.
fn pay_row(row: u32, texts: &ByteRecord) -> Result<ClockAnswer, RowError>
    ensures { result ≡ pay_row_of row (fields_of texts.now) }
{
    if texts.len() != 6 {
        return Err(refused(row, 0, Cause::WrongCount));
    }
    let fields = pay_fields(texts);
    judge(row, &fields)?;
    let [scheduled, hours, year_hours, weeks, year_weeks] = fields;
    Ok(ClockAnswer::Pay(clock_pay(
        scheduled.count(),
        hours.count(),
        year_hours.count(),
        weeks.count(),
        year_weeks.count(),
    )))
}

fn pay_fields(texts: &ByteRecord) -> [Field; 5]
    ensures { result ≡ fields_of_pay (fields_of texts.now) }
{
    let year_hours = whole_at(texts, 4);
    let year_weeks = whole_at(texts, 6);
    [
        Field::between(0, 99999, whole_at(texts, 2)),
        Field::up_to(0, year_hours, whole_at(texts, 3)),
        Field::between(1, 9999, year_hours),
        Field::up_to(0, year_weeks, whole_at(texts, 5)),
        Field::between(1, 99, year_weeks),
    ]
}

// The return of funds after a withdrawal.
fn withdraw_row(row: u32, texts: &ByteRecord) -> Result<ClockAnswer, RowError>
    ensures { result ≡ withdraw_row_of row (fields_of texts.now) }
{
    if texts.len() != 16 {
        return Err(refused(row, 0, Cause::WrongCount));
    }
    let fields = withdrawal_fields(texts);
    judge(row, &fields)?;
    Ok(returned(&clock_sheet(
        fields[0].count(),
        fields[1].count(),
        fields[2].size(),
        sizes(&fields[3..9]),
        sizes(&fields[9..]),
    )))
}

fn withdrawal_fields(texts: &ByteRecord) -> [Field; 15]
    ensures { result ≡ fields_of_withdrawal (fields_of texts.now) }
{
    let period_hours = whole_at(texts, 3);
    [
        Field::up_to(1, period_hours, whole_at(texts, 2)),
        Field::between(1, 9999, period_hours),
        amount_at(texts, 4),
        amount_at(texts, 5),
        amount_at(texts, 6),
        amount_at(texts, 7),
        amount_at(texts, 8),
        amount_at(texts, 9),
        amount_at(texts, 10),
        amount_at(texts, 11),
        amount_at(texts, 12),
        amount_at(texts, 13),
        amount_at(texts, 14),
        amount_at(texts, 15),
        amount_at(texts, 16),
    ]
}

fn amount_at(texts: &ByteRecord, field: usize) -> Field
    requires { 1 ≤ field }
    ensures { result ≡ amount_in_field (fields_of texts.now) field }
{
    Field::between(0, 99_999_999, cents_at(texts, field))
}

fn sizes(fields: &[Field]) -> [u64; 6]
    requires { length fields.now ≡ 6 }
    ensures { result ≡ map (λ field. size_of field.number) fields.now }
{
    [
        fields[0].size(),
        fields[1].size(),
        fields[2].size(),
        fields[3].size(),
        fields[4].size(),
        fields[5].size(),
    ]
}

// What a worksheet comes to.
fn returned(lines: &Lines) -> ClockAnswer
    requires { EachIsCents lines.now.owed }
    ensures { result ≡ returned_of lines.now }
{
    ClockAnswer::Returned {
        percent: lines.percent,
        returned: lines.school,
        owed: lines.owed.sum(),
        post: lines.post,
    }
}
