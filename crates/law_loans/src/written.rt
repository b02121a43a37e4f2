//! Rows of the index after one filing more.
ghost use Rattle.std.specs.Prelude.{◌≡◌, ℕ, ◌+◌, ◌≤◌, ◌∷◌, List, length};
ghost use Rattle.std.specs.Ordering.{nat_cmp};
ghost use Rattle.sorted_rows.specs.Places.{value_at};
ghost use Rattle.law_loans.specs.declared.filing.LoanFiling.{LoanFiling as Filed};
ghost use Rattle.law_loans.specs.Changes.{AreBelow, AreCovered};
ghost use Rattle.law_loans.specs.Rows.{AreLimits, AreStudents, AreYears, student_or, year_cmp, year_or};
ghost use Rattle.law_loans.specs.declared.names.StudentYear.{StudentYear as Named};

use crate::changes::{limits_after, student_after, year_after};
use crate::names::{StudentYear, student_named, year_named};
use crate::rows::{LimitsRow, StudentRow, YearRow, limits_told, student_told, year_told};
use crate::{LoanFiling, LoanWhat};
use sorted_rows::Table;

/// Writes the limits of a year, where such are filed.
pub(crate) fn write_limits(limits: &mut Table<u16, LimitsRow>, filing: &LoanFiling, position: u32)
    requires room { 1 ≤ limits.old.room }
    ensures rows { (past : List Filed) → position ≡ length past + 1 → AreLimits past limits.old.rows → AreLimits (filing.now ∷ past) limits.new.rows }
    ensures room { limits.old.room ≤ limits.new.room + 1 }
{
    if let LoanWhat::Limits(facts) = &filing.what {
        let year = facts.year.number();
        let row = limits_told(limits.at(&year));
        limits.set(year, limits_after(&row, facts, position));
    }
}

/// Writes the row of the student that a filing is about, where it is about one.
pub(crate) fn write_student(
    students: &mut Table<u64, StudentRow>,
    filing: &LoanFiling,
    position: u32,
)
    requires below { (student : ℕ) → AreBelow (student_or (value_at nat_cmp student students.old.rows)).nets }
    requires room { 1 ≤ students.old.room }
    ensures rows { (past : List Filed) → position ≡ length past + 1 → AreCovered past → AreStudents past students.old.rows → AreStudents (filing.now ∷ past) students.new.rows }
    ensures room { students.old.room ≤ students.new.room + 1 }
{
    if let LoanWhat::Limits(_) = &filing.what {
        return;
    }
    let student = student_named(&filing.what);
    let row = student_told(students.at(&student));
    students.set(student, student_after(&row, &filing.what, position));
}

/// Writes the row of the student's year that a filing is about, where it is about one.
pub(crate) fn write_year(years: &mut Table<StudentYear, YearRow>, filing: &LoanFiling)
    requires below { (name : Named) → AreBelow (year_or (value_at year_cmp name years.old.rows)).nets }
    requires room { 1 ≤ years.old.room }
    ensures rows { (past : List Filed) → AreCovered past → AreYears past years.old.rows → AreYears (filing.now ∷ past) years.new.rows }
    ensures room { years.old.room ≤ years.new.room + 1 }
{
    if let LoanWhat::Limits(_) | LoanWhat::Before(_) = &filing.what {
        return;
    }
    let name = StudentYear {
        student: student_named(&filing.what),
        year: year_named(&filing.what),
    };
    let row = year_told(years.at(&name));
    years.set(name, year_after(&row, &filing.what));
}
