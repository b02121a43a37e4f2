//! The numbers of days, flags, programs and regions, and those of the types that name students and years.
ghost use Rattle.std.specs.Prelude.{◌≡◌, ◌+◌, ◌≤◌, ◌++◌, IsTrue, length, neg_ℤ, pos};
ghost use Rattle.aid_types.specs.Programs.{rank};
ghost use Rattle.aid_types.specs.Ranges.{IsBetween};
ghost use Rattle.format_table.specs.Limits.{is_between};
ghost use Rattle.format_bytes.specs.Numbers.{day_number, flag_number, region_number};

use aid_types::{Day, Program, Region, Student, Year};

pub(crate) fn number_of_student(student: Student) -> i64
    ensures value { result ≡ pos student }
    ensures in_range { IsTrue (is_between (pos 1) (pos 999999999999) (pos student)) }
{
    student.0 as i64
}

pub(crate) fn student_from(number: i64) -> Student
    requires in_range { IsTrue (is_between (pos 1) (pos 999999999999) number) }
    ensures value { pos result ≡ number }
{
    Student(number as u64)
}

pub(crate) fn number_of_year(year: Year) -> i64
    ensures value { result ≡ pos year }
    ensures in_range { IsTrue (is_between (pos 2000) (pos 2099) (pos year)) }
{
    i64::from(year.0)
}

pub(crate) fn year_from(number: i64) -> Year
    requires in_range { IsTrue (is_between (pos 2000) (pos 2099) number) }
    ensures value { pos result ≡ number }
{
    Year(number as u16)
}

/// The days since 1970-01-01.
pub(crate) fn number_of_day(day: Day) -> i64
    ensures value { result ≡ day_number day }
    ensures in_range { IsTrue (is_between (neg_ℤ (pos 25567)) (pos 2932896) (day_number day)) }
{
    i64::from(day.0)
}

pub(crate) fn day_from(number: i64) -> Day
    requires in_range { IsTrue (is_between (neg_ℤ (pos 25567)) (pos 2932896) number) }
    ensures value { day_number result ≡ number }
{
    Day(number as i32)
}

pub(crate) fn number_of_flag(flag: bool) -> i64
    ensures value { result ≡ flag_number flag }
{
    i64::from(flag)
}

pub(crate) fn flag_from(number: i64) -> bool
    requires in_range { IsTrue (is_between (pos 0) (pos 1) number) }
    ensures value { flag_number result ≡ number }
{
    number == 1
}

pub(crate) fn number_of_region(region: Region) -> i64
    ensures value { result ≡ region_number region }
{
    match region {
        Region::Contiguous => 0,
        Region::Alaska => 1,
        Region::Hawaii => 2,
    }
}

pub(crate) fn region_from(number: i64) -> Region
    requires in_range { IsTrue (is_between (pos 0) (pos 2) number) }
    ensures value { region_number result ≡ number }
{
    match number {
        0 => Region::Contiguous,
        1 => Region::Alaska,
        2 => Region::Hawaii,
        _ => unreachable!(),
    }
}

pub(crate) fn number_of_program(program: Program) -> i64
    ensures value { result ≡ pos (rank program) }
    ensures in_range { IsTrue (is_between (pos 0) (pos 5) (pos (rank program))) }
{
    program.rank() as i64
}

pub(crate) fn program_from(number: i64) -> Program
    requires in_range { IsTrue (is_between (pos 0) (pos 5) number) }
    ensures value { pos (rank result) ≡ number }
{
    match number {
        0 => Program::Unsub,
        1 => Program::Sub,
        2 => Program::Plus,
        3 => Program::Pell,
        4 => Program::Fseog,
        5 => Program::Teach,
        _ => unreachable!(),
    }
}

/// A term's number in its year.
pub(crate) fn term_from(number: i64) -> u8
    requires in_range { IsTrue (is_between (pos 1) (pos 8) number) }
    ensures value { pos result ≡ number }
    ensures in_range { IsBetween 1 8 result }
{
    number as u8
}

/// An amount below a million dollars.
pub(crate) fn cents_from(number: i64) -> u64
    requires in_range { IsTrue (is_between (pos 0) (pos 99999999) number) }
    ensures value { pos result ≡ number }
    ensures in_range { result ≤ 99999999 }
{
    number as u64
}

/// The number by which a school finds a paper.
pub(crate) fn reference_from(number: i64) -> u64
    requires in_range { IsTrue (is_between (pos 0) (pos 999999999999) number) }
    ensures value { pos result ≡ number }
    ensures in_range { result ≤ 999999999999 }
{
    number as u64
}
