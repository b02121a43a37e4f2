//! The rows that a filing writes.
ghost use Rattle.std.specs.Prelude.{◌≡◌, ◌∷◌};
ghost use Rattle.office_history.specs.Answer.{IsLegal, outcome_of};
ghost use Rattle.office_answers.specs.Brought.{awarded};
ghost use Rattle.office_updates.specs.Changed.{IsPlaceBefore, IsSchoolYearBefore, IsStudentBefore, IsYearBefore};
ghost use Rattle.office_index.specs.Index.{IsWrittenBy};

use crate::own_entry::own_entry;
use aid_filings::{Filing, Outcome};
use office_answers::award_in;
use office_history::{
    HistoryView, PlaceRow, SchoolRow, SchoolYearRow, StudentPlace, StudentRow, StudentSchoolYear,
    StudentYear, YearRow,
};
use office_updates::{place_after, school_after, school_year_after, student_after, year_after};

/// The one row of each table that a filing changes, where it changes one.
#[derive(Drop)]
pub struct Written {
    pub school: Option<(u32, SchoolRow)>,
    pub student: Option<(u64, StudentRow)>,
    pub place: Option<(StudentPlace, PlaceRow)>,
    pub year: Option<(StudentYear, YearRow)>,
    pub school_year: Option<(StudentSchoolYear, SchoolYearRow)>,
}

/// The rows that a filing writes which comes legally after what is on file, from those that it may change and its outcome.
pub(crate) fn rows_after<P: HistoryView>(
    past: &P,
    filing: &Filing,
    outcome: &Outcome,
    place: &PlaceRow,
    year: &YearRow,
    school_year: &SchoolYearRow,
    student: &StudentRow,
) -> Written
    requires legal { IsLegal (filing.now ∷ P.history past.now) }
    requires outcome { outcome.now ≡ outcome_of (P.history past.now) filing.now }
    requires place { IsPlaceBefore (P.history past.now) filing.now place.now }
    requires year { IsYearBefore (P.history past.now) filing.now year.now }
    requires school_year { IsSchoolYearBefore (P.history past.now) filing.now school_year.now }
    requires student { IsStudentBefore (P.history past.now) filing.now student.now }
    ensures { IsWrittenBy (P.history past.now) filing.now result }
{
    let moved = own_entry(past, filing, place);
    let year_written = year_after(past, filing, year, award_in(outcome), &moved);
    Written {
        school: school_after(past, filing),
        student: student_after(past, filing, student, year, &year_written),
        place: place_after(past, filing, place, &moved),
        year: year_written,
        school_year: school_year_after(past, filing, school_year, &moved),
    }
}
