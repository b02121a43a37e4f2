//! Rows of the index after one filing more.
ghost use Rattle.std.specs.Prelude.{◌≡◌, ◌+◌, ◌<◌, ◌≤◌, ◌∷◌, ℕ, List, Some, None, IfSome, cond, length};
ghost use Rattle.std.specs.Ordering.{is_eq, nat_cmp};
ghost use Rattle.sorted_rows.specs.Places.{AreStaying, IsHere, IsWritten, value_at};
ghost use Rattle.aid_filings.specs.declared.filing.Filing.{Filing as Filed};
ghost use Rattle.office_history.specs.Answer.{IsLegal};
ghost use Rattle.office_history.specs.Past.{first_of_two, key_at};
ghost use Rattle.office_history.specs.declared.rows.StudentRow.{StudentRow as OfStudent};
ghost use Rattle.office_updates.specs.After.{IsSchoolAfter, IsStudentAfter};
ghost use Rattle.office_updates.specs.Changed.{IsPlaceBefore, student_changed};
ghost use Rattle.office_index.specs.Index.{AreBooks, AreKeys, AreSchools, AreStudents, filing_cmp, filing_name, position_or, school_or, student_or, written_or};

use crate::entries::{FilingNumber, SchoolEntry, StudentEntry, position_told, school_told};
use aid_filings::{Filing, What};
use office_history::{PlaceRow, SchoolRow, StudentRow};
use sorted_rows::{Slots, Table};

/// Writes a row, where one is to be written, and tells its slot; 0 where none is. `slot` is that of the row with its name, where
/// there is one.
pub(crate) fn write<K: Ord + Copy, V: Copy>(
    rows: &mut Slots<K, V>,
    slot: Option<u32>,
    written: &Option<(K, V)>,
) -> u32
    requires slot { (name : K) (row : V) → written.now ≡ Some (name, row) → IfSome slot (IsHere K.cmp name rows.old.rows) }
    requires new { (name : K) (row : V) → written.now ≡ Some (name, row) → slot ≡ None → value_at K.cmp name rows.old.rows ≡ None }
    requires room { 1 ≤ rows.old.room }
    requires few { length rows.old.rows < 4294967295 }
    ensures values { (name : K) → value_at K.cmp name rows.new.rows ≡ written_or K.cmp written.now name (value_at K.cmp name rows.old.rows) }
    ensures stays { AreStaying rows.old.rows rows.new.rows }
    ensures slot { (name : K) (row : V) → written.now ≡ Some (name, row) → IsHere K.cmp name rows.new.rows result }
    ensures room { rows.old.room ≤ rows.new.room + 1 }
    ensures count { length rows.new.rows ≤ length rows.old.rows + 1 }
{
    match written {
        Some((name, row)) => put_at(rows, slot, *name, row),
        None => 0,
    }
}

// Writes the row of a name, and tells its slot. `slot` is that of the row with this name, where there is one.
fn put_at<K: Ord + Copy, V: Copy>(
    rows: &mut Slots<K, V>,
    slot: Option<u32>,
    name: K,
    row: &V,
) -> u32
    requires slot { IfSome slot (IsHere K.cmp name rows.old.rows) }
    requires new { slot ≡ None → value_at K.cmp name rows.old.rows ≡ None }
    requires room { 1 ≤ rows.old.room }
    requires few { length rows.old.rows < 4294967295 }
    ensures values { IsWritten K.cmp name row.now rows.old.rows rows.new.rows }
    ensures stays { AreStaying rows.old.rows rows.new.rows }
    ensures slot { IsHere K.cmp name rows.new.rows result }
    ensures room { rows.old.room ≤ rows.new.room + 1 }
    ensures count { length rows.new.rows ≤ length rows.old.rows + 1 }
{
    match slot {
        Some(slot) => {
            rows.set(slot, *row);
            slot
        }
        None => rows.add(name, *row),
    }
}

/// Writes the position of a filing under its key, which is new.
pub(crate) fn write_key(keys: &mut Table<FilingNumber, u32>, filing: &Filing, position: u32)
    requires new { value_at filing_cmp (filing_name filing.now.key) keys.old.rows ≡ None }
    requires room { 1 ≤ keys.old.room }
    ensures rows { (past : List Filed) → position ≡ length past + 1 → key_at filing.now.key past ≡ 0 → AreKeys past keys.old.rows → AreKeys (filing.now ∷ past) keys.new.rows }
    ensures room { keys.old.room ≤ keys.new.room + 1 }
    ensures count { length keys.new.rows ≡ length keys.old.rows + 1 }
{
    let name = FilingNumber {
        number: filing.key.number,
        school: filing.key.school.0,
    };
    keys.add(name, position);
}

/// Writes the position of a book under its year, where the year has none yet.
pub(crate) fn write_book(books: &mut Table<u16, u32>, filing: &Filing, position: u32)
    requires room { 1 ≤ books.old.room }
    ensures rows { (past : List Filed) → position ≡ length past + 1 → AreBooks past books.old.rows → AreBooks (filing.now ∷ past) books.new.rows }
    ensures room { books.old.room ≤ books.new.room + 1 }
    ensures count { length books.new.rows ≤ length books.old.rows + 1 }
{
    if let What::Book(book) = &filing.what {
        write_first(books, book.as_book().year.0, position);
    }
}

// Writes the position of a year, where it has none yet.
fn write_first(books: &mut Table<u16, u32>, year: u16, position: u32)
    requires room { 1 ≤ books.old.room }
    ensures values { (other : ℕ) → position_or (value_at nat_cmp other books.new.rows)
        ≡ first_of_two (is_eq (nat_cmp year other)) (position_or (value_at nat_cmp other books.old.rows)) position }
    ensures room { books.old.room ≤ books.new.room + 1 }
    ensures count { length books.new.rows ≤ length books.old.rows + 1 }
{
    if position_told(books.at(&year)) == 0 {
        books.set(year, position);
    }
}

/// Writes a school's row where one is to be written, or the position of a term as its school's newest.
pub(crate) fn write_school(
    schools: &mut Slots<u32, SchoolEntry>,
    filing: &Filing,
    written: Option<(u32, SchoolRow)>,
    position: u32,
)
    requires room { 1 ≤ schools.old.room }
    requires few { length schools.old.rows < 4294967295 }
    ensures rows { (past : List Filed) → position ≡ length past + 1 → IsSchoolAfter past filing.now written → AreSchools past schools.old.rows → AreSchools (filing.now ∷ past) schools.new.rows }
    ensures room { schools.old.room ≤ schools.new.room + 1 }
    ensures count { length schools.new.rows ≤ length schools.old.rows + 1 }
{
    match (&filing.what, written) {
        (What::Calendar(_), _) => write_newest_term(schools, filing.key.school.0, position),
        (_, Some((code, row))) => write_school_row(schools, code, row),
        (_, None) => {}
    }
}

// Writes a school's row.
fn write_school_row(schools: &mut Slots<u32, SchoolEntry>, code: u32, row: SchoolRow)
    requires room { 1 ≤ schools.old.room }
    requires few { length schools.old.rows < 4294967295 }
    ensures values { (other : ℕ) → school_or (value_at nat_cmp other schools.new.rows)
        ≡ record { row = cond (is_eq (nat_cmp code other)) row (school_or (value_at nat_cmp other schools.old.rows)).row; newest = (school_or (value_at nat_cmp other schools.old.rows)).newest } }
    ensures room { schools.old.room ≤ schools.new.room + 1 }
    ensures count { length schools.new.rows ≤ length schools.old.rows + 1 }
{
    let newest = school_told(schools.at(&code)).newest;
    schools.put(code, SchoolEntry { row, newest });
}

// Writes the position of a school's newest term.
fn write_newest_term(schools: &mut Slots<u32, SchoolEntry>, code: u32, newest: u32)
    requires room { 1 ≤ schools.old.room }
    requires few { length schools.old.rows < 4294967295 }
    ensures values { (other : ℕ) → school_or (value_at nat_cmp other schools.new.rows)
        ≡ record { row = (school_or (value_at nat_cmp other schools.old.rows)).row; newest = cond (is_eq (nat_cmp code other)) newest (school_or (value_at nat_cmp other schools.old.rows)).newest } }
    ensures room { schools.old.room ≤ schools.new.room + 1 }
    ensures count { length schools.new.rows ≤ length schools.old.rows + 1 }
{
    let row = school_told(schools.at(&code)).row;
    schools.put(code, SchoolEntry { row, newest });
}

/// Writes a student's row where one is to be written, or the position of an enrollment that is the first in its place as the
/// student's newest. `slot` is that of the student's row, where there is one, `before` what is told of the student, and `place`
/// the row of the place of an enrollment, which is the first where no credits are in force.
pub(crate) fn write_student(
    students: &mut Slots<u64, StudentEntry>,
    slot: Option<u32>,
    before: &StudentEntry,
    filing: &Filing,
    place: &PlaceRow,
    written: Option<(u64, StudentRow)>,
    position: u32,
)
    requires slot { (student : ℕ) → student_changed filing.now.what ≡ Some student → IfSome slot (IsHere nat_cmp student students.old.rows) }
    requires new { (student : ℕ) → student_changed filing.now.what ≡ Some student → slot ≡ None → value_at nat_cmp student students.old.rows ≡ None }
    requires before { (student : ℕ) → student_changed filing.now.what ≡ Some student → before.now ≡ student_or (value_at nat_cmp student students.old.rows) }
    requires named { (student : ℕ) (row : OfStudent) → written ≡ Some (student, row) → student_changed filing.now.what ≡ Some student }
    requires room { 1 ≤ students.old.room }
    requires few { length students.old.rows < 4294967295 }
    ensures rows { (past : List Filed) → IsLegal past → position ≡ length past + 1 → IsPlaceBefore past filing.now place.now → IsStudentAfter past filing.now written → AreStudents past students.old.rows → AreStudents (filing.now ∷ past) students.new.rows }
    ensures room { students.old.room ≤ students.new.room + 1 }
    ensures count { length students.new.rows ≤ length students.old.rows + 1 }
{
    match (&filing.what, written) {
        (What::Enroll(enrollment), _) => {
            if place.credits == 0 {
                write_newest_enrollment(students, slot, before, enrollment.student.0, position);
            }
        }
        (_, Some((student, row))) => write_student_row(students, slot, before, student, row),
        (_, None) => {}
    }
}

// Writes a student's row.
fn write_student_row(
    students: &mut Slots<u64, StudentEntry>,
    slot: Option<u32>,
    before: &StudentEntry,
    student: u64,
    row: StudentRow,
)
    requires slot { IfSome slot (IsHere nat_cmp student students.old.rows) }
    requires new { slot ≡ None → value_at nat_cmp student students.old.rows ≡ None }
    requires before { before.now ≡ student_or (value_at nat_cmp student students.old.rows) }
    requires room { 1 ≤ students.old.room }
    requires few { length students.old.rows < 4294967295 }
    ensures values { (other : ℕ) → student_or (value_at nat_cmp other students.new.rows)
        ≡ record { row = cond (is_eq (nat_cmp student other)) row (student_or (value_at nat_cmp other students.old.rows)).row; newest = (student_or (value_at nat_cmp other students.old.rows)).newest } }
    ensures room { students.old.room ≤ students.new.room + 1 }
    ensures count { length students.new.rows ≤ length students.old.rows + 1 }
{
    put_at(students, slot, student, &StudentEntry { row, ..*before });
}

// Writes the position of a student's newest enrollment.
fn write_newest_enrollment(
    students: &mut Slots<u64, StudentEntry>,
    slot: Option<u32>,
    before: &StudentEntry,
    student: u64,
    newest: u32,
)
    requires slot { IfSome slot (IsHere nat_cmp student students.old.rows) }
    requires new { slot ≡ None → value_at nat_cmp student students.old.rows ≡ None }
    requires before { before.now ≡ student_or (value_at nat_cmp student students.old.rows) }
    requires room { 1 ≤ students.old.room }
    requires few { length students.old.rows < 4294967295 }
    ensures values { (other : ℕ) → student_or (value_at nat_cmp other students.new.rows)
        ≡ record { row = (student_or (value_at nat_cmp other students.old.rows)).row; newest = cond (is_eq (nat_cmp student other)) newest (student_or (value_at nat_cmp other students.old.rows)).newest } }
    ensures room { students.old.room ≤ students.new.room + 1 }
    ensures count { length students.new.rows ≤ length students.old.rows + 1 }
{
    put_at(students, slot, student, &StudentEntry { newest, ..*before });
}
