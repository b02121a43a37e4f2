//! The office's filings, with sorted rows that tell what is on file.
ghost use Rattle.std.specs.Prelude.{◌≡◌, ◌+◌, ◌*◌, ◌≤◌, ◌∷◌, [], max, length, reverse, IsOk, OnOk, OnErr};
ghost use Rattle.std.specs.Option.{option_copied};
ghost use Rattle.aid_filings.specs.declared.filing.EnrollFacts.{EnrollFacts as Enrollment};
ghost use Rattle.aid_filings.specs.declared.filing.What.TheVariants.{Enroll};
ghost use Rattle.office_history.specs.Answer.{IsLegal, outcome_of};
ghost use Rattle.office_history.specs.Positions.{school_at, term_at};
ghost use Rattle.office_updates.specs.Changed.{IsPlaceBefore};
ghost use Rattle.office_index.specs.Digits.{digits_of};
ghost use Rattle.office_index.specs.Index.{book_filed, school_entry, student_entry};
ghost use Rattle.office_updates.specs.Links.{before_in};

use crate::entries::{
    FilingNumber, SchoolEntry, StudentEntry, place_told, position_told, school_told,
    school_year_told, student_told, year_told,
};
use crate::filed::{write, write_book, write_key, write_school, write_student};
use crate::lookup::find;
use crate::written::rows_after;
use aid_books::Book;
use aid_filings::{CalendarFacts, Filing, Outcome, What};
use aid_types::{Key, Refusal, School, Student, Term, Year};
use office_history::{
    CalendarRow, HistoryView, PlaceRow, SchoolRow, SchoolYearRow, StudentPlace, StudentRow,
    StudentSchoolYear, StudentYear, TermRow, YearRow,
};
use office_updates::{
    EnrollmentLink, link_of, paid_beside, place_changed, school_calendar, school_term,
    school_year_changed, student_changed, term_of, term_over, year_changed,
};
use sorted_rows::{Slots, Steps, Table};
use std::alloc::{AllocError, Global};
use std::marker::Model;
use std::sync::ledger::Ledger;

/// The filings of an office with the outcomes of their admissions, sorted rows that tell what is on file, and room for more
/// filings. A contract sees the history, the newest filing first, and the spare room. The history is legal.
#[derive(Drop)]
pub struct Indexed {
    filings: Vec<Filing>,
    outcomes: Vec<Outcome>,
    befores: Vec<u32>,
    links: Vec<EnrollmentLink>,
    keys: Table<FilingNumber, u32>,
    books: Table<u16, u32>,
    schools: Slots<u32, SchoolEntry>,
    students: Slots<u64, StudentEntry>,
    places: Slots<StudentPlace, PlaceRow>,
    years: Slots<StudentYear, YearRow>,
    school_years: Slots<StudentSchoolYear, SchoolYearRow>,
    spare: u32,
}

impl Model for Indexed {
    ghost use Rattle.std.specs.Prelude.{◌+◌, ◌≤◌, reverse, vec_len, vec_capacity};
    ghost use Rattle.office_index.specs.Register.{Register};

    ghost Value = { Register };

    ghost use Rattle.office_index.specs.Index.{IsIndexed};

    ghost view = { λ o. record { history = reverse o.filings.items; spare = o.spare } };

    ghost invariant = { λ o. IsIndexed (reverse o.filings.items) o.outcomes.items (record {
      keys = o.keys.rows;
      books = o.books.rows;
      schools = o.schools.rows;
      students = o.students.rows;
      places = o.places.rows;
      years = o.years.rows;
      school_years = o.school_years.rows;
      befores = o.befores.items;
      links = o.links.items;
    })
        × (vec_len o.filings + o.spare ≤ vec_capacity o.filings) × (vec_len o.outcomes + o.spare ≤ vec_capacity o.outcomes)
        × (vec_len o.links + o.spare ≤ vec_capacity o.links) × (o.spare ≤ o.keys.room) × (o.spare ≤ o.books.room)
        × (o.spare ≤ o.schools.room) × (o.spare ≤ o.students.room) × (o.spare ≤ o.places.room) × (o.spare ≤ o.years.room)
        × (o.spare ≤ o.school_years.room) × (vec_len o.befores + o.spare ≤ vec_capacity o.befores) };
}

impl Indexed {
    /// No filing.
    pub fn new(alloc: Global) -> Self
        ensures history { result.history ≡ [] }
        ensures spare { result.spare ≡ 0 }
    {
        Indexed {
            filings: Vec::new(alloc),
            outcomes: Vec::new(alloc),
            befores: Vec::new(alloc),
            links: Vec::new(alloc),
            keys: Table::new(alloc),
            books: Table::new(alloc),
            schools: Slots::new(alloc),
            students: Slots::new(alloc),
            places: Slots::new(alloc),
            years: Slots::new(alloc),
            school_years: Slots::new(alloc),
            spare: 0,
        }
    }

    /// Makes room for `n` filings more. An `Err` is want of memory, and leaves all as it was.
    pub fn reserve(&mut self, n: u32) -> Result<(), AllocError>
        ensures history { self.new.history ≡ self.old.history }
        ensures room { OnOk result (self.new.spare ≡ max self.old.spare n) }
        ensures succeeds { n ≤ self.old.spare → IsOk result }
        ensures err { OnErr result (self.new ≡ self.old) }
    {
        if self.spare < n {
            self.filings.reserve(n as usize)?;
            self.outcomes.reserve(n as usize)?;
            self.befores.reserve(n as usize)?;
            self.links.reserve(n as usize)?;
            self.keys.reserve(n)?;
            self.books.reserve(n)?;
            self.schools.reserve(n)?;
            self.students.reserve(n)?;
            self.places.reserve(n)?;
            self.years.reserve(n)?;
            self.school_years.reserve(n)?;
            self.spare = n;
        }
        Ok(())
    }

    /// The filings, the oldest first.
    pub fn filings(&self) -> &[Filing]
        ensures { reverse result.now ≡ self.now.history }
    {
        self.filings.as_slice()
    }

    /// The filings alone, the oldest first. The rows that tell what is on file are let go. It takes no memory.
    pub fn into_filings(self) -> Vec<Filing>
        ensures { reverse result.items ≡ self.history }
    {
        let Indexed { filings, .. } = self;
        filings
    }

    /// Appends a filing that makes the history a legal one of one more, with what it is admitted with. It takes no memory,
    /// but one of the places of `reserve`. The rows of a student that it may change are each looked for once.
    pub fn admit(&mut self, filing: Filing, outcome: Outcome)
        requires legal { IsLegal (filing ∷ self.old.history) }
        requires outcome { outcome ≡ outcome_of self.old.history filing }
        requires room { 1 ≤ self.old.spare }
        ensures history { self.new.history ≡ filing ∷ self.old.history }
        ensures spare { self.new.spare + 1 ≡ self.old.spare }
    {
        let position = self.front() + 1;
        let (place_slot, place) = find(&self.places, &place_changed(&filing));
        let (year_slot, year) = find(&self.years, &year_changed(&filing));
        let (cost_slot, cost) = find(&self.school_years, &school_year_changed(&filing));
        let (student_slot, student) = find(&self.students, &student_changed(&filing));
        let place = place_told(place);
        let year = year_told(year);
        let cost = school_year_told(cost);
        let student = student_told(student);
        let before = self.newest_before(&filing, &place, &student);
        let (school_at, term_at) = self.term_of(&filing);
        let written = rows_after(self, &filing, &outcome, &place, &year, &cost, &student.row);
        let slot = write(&mut self.places, place_slot, &written.place);
        write_key(&mut self.keys, &filing, position);
        write_book(&mut self.books, &filing, position);
        write_school(&mut self.schools, &filing, written.school, position);
        write_student(
            &mut self.students,
            student_slot,
            &student,
            &filing,
            &place,
            written.student,
            position,
        );
        write(&mut self.years, year_slot, &written.year);
        write(&mut self.school_years, cost_slot, &written.school_year);
        self.befores.push_reserved(before);
        self.links
            .push_reserved(link_of(&filing, slot, school_at, term_at));
        self.filings.push_reserved(filing);
        self.outcomes.push_reserved(outcome);
        self.spare -= 1;
    }

    // The position of the term before a term that is filed, of the same school, or of the first enrollment before an enrollment
    // that is the first in its place, of the same student; 0 where there is none. `place` and `student` are those of an
    // enrollment, which is the first where no credits are in force.
    fn newest_before(&self, filing: &Filing, place: &PlaceRow, student: &StudentEntry) -> u32
        requires place { IsPlaceBefore self.now.history filing.now place.now }
        requires student { (e : Enrollment) → filing.now.what ≡ Enroll e → student.now ≡ student_entry self.now.history e.student }
        ensures { result ≡ before_in self.now.history filing.now.key.school filing.now.what }
    {
        match &filing.what {
            What::Calendar(_) => school_told(self.schools.at(&filing.key.school.0)).newest,
            What::Enroll(_) => {
                if place.credits == 0 {
                    student.newest
                } else {
                    0
                }
            }
            _ => 0,
        }
    }

    // The positions of the school and of the term of an enrollment; 0 of other filings.
    fn term_of(&self, filing: &Filing) -> (u32, u32)
        ensures { (e : Enrollment) → filing.now.what ≡ Enroll e
            → (result.0 ≡ school_at self.now.history filing.now.key.school) × (result.1 ≡ term_at self.now.history filing.now.key.school e.year e.term) }
    {
        match &filing.what {
            What::Enroll(enrollment) => {
                let (school, term) = term_of(
                    self,
                    filing.key.school,
                    enrollment.year,
                    enrollment.term,
                );
                (school.at, term.at)
            }
            _ => (0, 0),
        }
    }

    // The school with a code and its newest term.
    fn school_entry<L: Ledger>(&self, code: u32, steps: &mut Steps<L>) -> SchoolEntry
        ensures value { result ≡ school_entry self.now.history code }
        ensures later { steps.old ≤ steps.new }
        ensures cost { steps.new ≤ steps.old + 2 * digits_of (length self.now.history) }
    {
        school_told(self.schools.get(&code, steps))
    }

    // A student and the newest enrollment that is the first in its place.
    fn student_entry<L: Ledger>(&self, student: Student, steps: &mut Steps<L>) -> StudentEntry
        ensures value { result ≡ student_entry self.now.history student }
        ensures later { steps.old ≤ steps.new }
        ensures cost { steps.new ≤ steps.old + 2 * digits_of (length self.now.history) }
    {
        student_told(self.students.get(&student.0, steps))
    }
}

impl HistoryView for Indexed {
    ghost use Rattle.std.specs.Prelude.{◌*◌, length, true};
    ghost use Rattle.office_index.specs.Digits.{digits_of};

    ghost history = { λ o. o.history };

    ghost lookups = { λ o. 2 * digits_of (length o.history) };

    ghost counts = { λ o. true };

    fn front(&self) -> u32 {
        self.filings.as_slice().len() as u32
    }

    fn filing(&self, position: u32) -> Option<&Filing> {
        if position == 0 {
            return None;
        }
        self.filings.as_slice().get(position as usize - 1)
    }

    fn outcome(&self, position: u32) -> Outcome {
        self.outcomes.as_slice()[position as usize - 1]
    }

    fn key_at<L: Ledger>(&self, key: &Key, steps: &mut Steps<L>) -> u32 {
        let name = FilingNumber {
            number: key.number,
            school: key.school.0,
        };
        position_told(self.keys.get(&name, steps))
    }

    fn book_at<L: Ledger>(&self, year: Year, steps: &mut Steps<L>) -> u32 {
        position_told(self.books.get(&year.0, steps))
    }

    fn book<L: Ledger>(&self, year: Year, steps: &mut Steps<L>) -> Option<&Book> {
        let filing = self.filing(self.book_at(year, steps))?;
        book_in(&filing.what)
    }

    fn school<L: Ledger>(&self, code: u32, steps: &mut Steps<L>) -> SchoolRow {
        self.school_entry(code, steps).row
    }

    fn term<L: Ledger>(
        &self,
        school: School,
        year: Year,
        number: u8,
        steps: &mut Steps<L>,
    ) -> (SchoolRow, TermRow) {
        let entry = self.school_entry(school.0, steps);
        let term = school_term(
            self.filings.as_slice(),
            self.befores.as_slice(),
            entry.newest,
            school,
            year,
            number,
            steps,
        );
        (entry.row, term)
    }

    fn calendar<L: Ledger>(
        &self,
        school: School,
        calendar: &CalendarFacts,
        steps: &mut Steps<L>,
    ) -> (SchoolRow, CalendarRow) {
        let entry = self.school_entry(school.0, steps);
        let terms = school_calendar(
            self.filings.as_slice(),
            self.befores.as_slice(),
            entry.newest,
            school,
            calendar,
            steps,
        );
        (entry.row, terms)
    }

    fn place<L: Ledger>(
        &self,
        school: School,
        student: Student,
        year: Year,
        number: u8,
        steps: &mut Steps<L>,
    ) -> PlaceRow {
        let name = StudentPlace {
            student: student.0,
            school: school.0,
            year: year.0,
            term: number,
        };
        place_told(self.places.get(&name, steps))
    }

    fn year<L: Ledger>(&self, student: Student, year: Year, steps: &mut Steps<L>) -> YearRow {
        let name = StudentYear {
            student: student.0,
            year: year.0,
        };
        year_told(self.years.get(&name, steps))
    }

    fn school_year<L: Ledger>(
        &self,
        school: School,
        student: Student,
        year: Year,
        steps: &mut Steps<L>,
    ) -> SchoolYearRow {
        let name = StudentSchoolYear {
            student: student.0,
            school: school.0,
            year: year.0,
        };
        school_year_told(self.school_years.get(&name, steps))
    }

    fn student<L: Ledger>(&self, student: Student, steps: &mut Steps<L>) -> StudentRow {
        self.student_entry(student, steps).row
    }

    fn beside<L: Ledger>(
        &self,
        student: Student,
        school: School,
        this: &Option<Term>,
        steps: &mut Steps<L>,
    ) -> (StudentRow, u32) {
        let entry = self.student_entry(student, steps);
        let code = paid_beside(
            self.filings.as_slice(),
            self.befores.as_slice(),
            self.links.as_slice(),
            &self.places,
            entry.newest,
            student,
            school,
            this,
            steps,
        );
        (entry.row, code)
    }

    fn over<L: Ledger>(
        &self,
        award: u32,
        student: Student,
        year: Year,
        steps: &mut Steps<L>,
    ) -> (StudentRow, Option<Refusal>) {
        let entry = self.student_entry(student, steps);
        let term = term_over(
            self.filings.as_slice(),
            self.befores.as_slice(),
            self.links.as_slice(),
            &self.places,
            entry.newest,
            student,
            award,
            year,
            steps,
        );
        (entry.row, term)
    }
}

// The book that is filed.
fn book_in(what: &What) -> Option<&Book>
    ensures { option_copied result ≡ book_filed what.now }
{
    match what {
        What::Book(book) => Some(book.as_book()),
        _ => None,
    }
}
