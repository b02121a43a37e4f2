// The asks of a generated year behind its book, one at a time.
ghost use Rattle.std.specs.Prelude.{◌≡◌, ◌+◌, ◌*◌, ◌≤◌, None, [], ◌∷◌, ◌++◌, MatchOption, length};
ghost use Rattle.run_generate.specs.Rows.{founding_rows, says, students_rows};
ghost use Rattle.run_generate.specs.Left.{asks_left};

use crate::YearOperation;
use crate::draws::{Students, next_student};
use crate::student::{DrawnStudent, application, student_row};
use crate::terms::{FOUNDING_ROWS, founding_row};
use aid_types::Year;

/// The rows behind the book that weren't taken yet: how many of the schools and terms were taken, the student whose rows are
/// being taken, and the students behind.
#[derive(Clone, Copy)]
pub struct YearOperations {
    year: Year,
    founded: u8,
    student: Option<DrawnStudent>,
    students: Students,
}

impl YearOperations {
    /// The asks of a year for so many students, who are drawn from a seed.
    pub fn new(year: Year, students: u16, seed: u64) -> YearOperations
        ensures left { asks_left result ≡ founding_rows year ++ students_rows year students 1 seed }
        ensures students { result.students.left ≡ students }
    {
        YearOperations {
            year,
            founded: 0,
            student: None,
            students: Students {
                last: 0,
                left: students,
                seed,
            },
        }
    }

    /// No asks.
    #[tactic(auto, unfolding(crate::specs::Rows::students_rows))]
    pub fn none() -> YearOperations
        ensures { asks_left result ≡ [] }
    {
        YearOperations {
            year: Year(2000),
            founded: FOUNDING_ROWS,
            student: None,
            students: Students {
                last: 0,
                left: 0,
                seed: 0,
            },
        }
    }

    // The next row of the schools and terms.
    fn next_founding(&mut self) -> Option<YearOperation>
        ensures { MatchOption result ((self.new ≡ self.old) × (12 ≤ self.old.founded)) (λ operation. asks_left self.old ≡ says operation ∷ asks_left self.new) }
    {
        if self.founded >= FOUNDING_ROWS {
            return None;
        }
        let operation = founding_row(self.year, self.founded);
        self.founded += 1;
        Some(operation)
    }

    // The next row of the student whose rows are being taken.
    fn next_of_student(&mut self) -> Option<YearOperation>
        requires { 12 ≤ self.old.founded }
        ensures { MatchOption result ((asks_left self.new ≡ asks_left self.old) × (self.new.founded ≡ self.old.founded) × (self.new.student ≡ None))
            (λ operation. asks_left self.old ≡ says operation ∷ asks_left self.new) }
    {
        let Some(student) = self.student else {
            return None;
        };
        match student_row(self.year, &student) {
            Some(operation) => {
                self.student = Some(DrawnStudent {
                    number: student.number,
                    draws: student.draws,
                    taken: student.taken + 1,
                });
                Some(operation)
            }
            None => {
                self.student = None;
                None
            }
        }
    }

    // The first row of the next student.
    fn begin_student(&mut self) -> Option<YearOperation>
        requires founded { 12 ≤ self.old.founded }
        requires none { self.old.student ≡ None }
        ensures { MatchOption result ((asks_left self.old ≡ []) × (asks_left self.new ≡ [])) (λ operation. asks_left self.old ≡ says operation ∷ asks_left self.new) }
    {
        let Some((draws, students)) = next_student(&self.students) else {
            return None;
        };
        let student = DrawnStudent {
            number: students.last,
            draws,
            taken: 1,
        };
        let operation = application(self.year, &student);
        self.student = Some(student);
        self.students = students;
        Some(operation)
    }

    /// The next ask; `None` behind the last.
    pub fn next(&mut self) -> Option<YearOperation>
        ensures { MatchOption result ((asks_left self.old ≡ []) × (asks_left self.new ≡ [])) (λ operation. asks_left self.old ≡ says operation ∷ asks_left self.new) }
    {
        if let Some(operation) = self.next_founding() {
            return Some(operation);
        }
        if let Some(operation) = self.next_of_student() {
            return Some(operation);
        }
        self.begin_student()
    }

    /// At most so many asks are left.
    #[tactic(auto, using(crate::proofs::Counts::few_left))]
    pub fn at_most(&self) -> u32
        ensures value { length (asks_left self.now) ≤ result }
        ensures few { result ≤ 400000 }
    {
        5 * u32::from(self.students.left) + 17
    }
}
