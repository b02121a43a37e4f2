//! The numbers of students, years, flags, programs and dollars.
ghost use Rattle.std.specs.Prelude.{◌≡◌, ◌≤◌, IsTrue, pos};
ghost use Rattle.aid_types.specs.Programs.{rank};
ghost use Rattle.format_table.specs.Limits.{is_between};
ghost use Rattle.law_loans.specs.Ranges.{is_loan};
ghost use Rattle.loans.specs.Numbers.{flag_number};

use aid_types::{Program, Student, Year};

pub(crate) fn number_of_student(student: Student) -> i64
    ensures value { result ≡ pos student }
    ensures in_range { IsTrue (is_between (pos 1) (pos 999999999999) (pos student)) }
{
    student.0 as i64
}

pub(crate) fn student_from(number: i64) -> Student
    requires in_range { IsTrue (is_between (pos 1) (pos 999999999999) number) }
    ensures value { pos result ≡ number }
{
    Student(number as u64)
}

pub(crate) fn number_of_year(year: Year) -> i64
    ensures value { result ≡ pos year }
    ensures in_range { IsTrue (is_between (pos 2000) (pos 2099) (pos year)) }
{
    i64::from(year.0)
}

pub(crate) fn year_from(number: i64) -> Year
    requires in_range { IsTrue (is_between (pos 2000) (pos 2099) number) }
    ensures value { pos result ≡ number }
{
    Year(number as u16)
}

pub(crate) fn number_of_flag(flag: bool) -> i64
    ensures value { result ≡ flag_number flag }
{
    i64::from(flag)
}

pub(crate) fn flag_from(number: i64) -> bool
    requires in_range { IsTrue (is_between (pos 0) (pos 1) number) }
    ensures value { flag_number result ≡ number }
{
    number == 1
}

/// A program of loans by its place: `Unsub` is 0, and `Sub` is 1.
#[tactic(auto, using(crate::proofs::Fit::program_fits))]
pub(crate) fn number_of_program(program: Program) -> i64
    requires loan { IsTrue (is_loan program) }
    ensures value { result ≡ pos (rank program) }
    ensures in_range { IsTrue (is_between (pos 0) (pos 1) (pos (rank program))) }
{
    program.rank() as i64
}

pub(crate) fn program_from(number: i64) -> Program
    requires in_range { IsTrue (is_between (pos 0) (pos 1) number) }
    ensures value { pos (rank result) ≡ number }
    ensures loan { IsTrue (is_loan result) }
{
    match number {
        0 => Program::Unsub,
        1 => Program::Sub,
        _ => unreachable!(),
    }
}

/// Dollars below a million.
pub(crate) fn dollars_from(number: i64) -> u32
    requires in_range { IsTrue (is_between (pos 0) (pos 999999) number) }
    ensures value { pos result ≡ number }
    ensures in_range { result ≤ 999999 }
{
    number as u32
}

/// Cents below a million dollars.
pub(crate) fn cents_from(number: i64) -> u64
    requires in_range { IsTrue (is_between (pos 0) (pos 99999999) number) }
    ensures value { pos result ≡ number }
    ensures in_range { result ≤ 99999999 }
{
    number as u64
}
