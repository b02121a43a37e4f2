//! The rows of a round: a student, the Student Aid Index, the need in whole dollars and the enrollment intensity in percent.
ghost use Rattle.std.specs.Prelude.{◌≡◌, ◌≤◌, ◌++◌, ◌-◌, IfOk, OnOk};
ghost use Rattle.aid_types.specs.Ranges.{IsWithin};
ghost use Rattle.csv.specs.Records.{field_at, fields_of as texts_of};
ghost use Rattle.format_rows.specs.Meanings.{said_of};
ghost use Rattle.work_rounds.specs.Rows.{repeated_line, round_row, said_of_candidate};

use aid_types::Student;
use arrayvec::ArrayString;
use csv::ByteRecord;
use format_rows::{Cause, RowError, RowReader, push_count, whole_at};
use law_funds::Candidate;
use std::alloc::{AllocError, Global};

/// What contracts see of a row of a round. No code makes one.
#[derive(Drop)]
pub struct RoundSaid {
    pub student: u64,
    pub sai: i32,
    pub need: u32,
    pub intensity: u8,
}

/// Rows `student,sai,need,intensity`, as candidates. The student is field 1.
pub struct RoundForm;

impl RowReader for RoundForm {
    type Entry = Candidate;

    type Said = RoundSaid;

    ghost meaning = { round_row };

    ghost said = { said_of_candidate };

    fn read(
        _alloc: Global,
        row: u32,
        texts: &ByteRecord,
    ) -> Result<Result<Candidate, RowError>, AllocError> {
        Ok(candidate_of_row(row, texts))
    }
}

// The candidate of a row, or why it is none.
fn candidate_of_row(row: u32, texts: &ByteRecord) -> Result<Candidate, RowError>
    ensures { said_of said_of_candidate result ≡ round_row row (texts_of texts.now) }
{
    if texts.len() != 4 {
        return Err(RowError {
            row,
            field: 0,
            cause: Cause::WrongCount,
        });
    }
    let student = whole_at(row, texts, 1, 1, 999_999_999_999)?;
    let sai = whole_at(row, texts, 2, -1_500, 999_999)?;
    let need = whole_at(row, texts, 3, 0, 999_999)?;
    let intensity = whole_at(row, texts, 4, 1, 100)?;
    Ok(Candidate {
        student: Student(student as u64),
        sai: sai as i32,
        need: need as u32,
        intensity: intensity as u8,
    })
}

/// Appends the line of a row whose student was read before.
pub(crate) fn put_repeated(row: u32, out: &mut Vec<u8>) -> Result<(), AllocError>
    ensures { OnOk result (out.new.items ≡ out.old.items ++ repeated_line row) }
{
    let mut line = ArrayString::<160>::new();
    push_count(&mut line, row);
    line.push_str(" error 1 5\n");
    out.extend_from_slice(line.as_str().as_bytes())
}
