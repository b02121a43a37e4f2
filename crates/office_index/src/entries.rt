//! What rows of the index tell.
ghost use Rattle.std.specs.Prelude.{◌≡◌};
ghost use Rattle.std.specs.Option.{option_copied};
ghost use Rattle.office_updates.specs.Placed.{place_or};
ghost use Rattle.office_index.specs.Index.{position_or, school_or, school_year_or, student_or, year_or};

use aid_types::{ByProgram, Day};
use law_pell::Ceiling;
use office_history::{Account, PlaceRow, SchoolRow, SchoolYearRow, StudentRow, YearRow};

/// What names a filing in the index: its number, and then its school. Numbers rise at each school, so a new name comes last or
/// nearly so.
#[derive(Clone, Copy, PartialEq, Eq, PartialOrd, Ord)]
pub struct FilingNumber {
    pub number: u64,
    pub school: u32,
}

/// A school with the position of its newest term, 0 where it has none.
#[derive(Clone, Copy, PartialEq, Eq)]
pub struct SchoolEntry {
    pub row: SchoolRow,
    pub newest: u32,
}

/// A student with the position of the newest enrollment that is the first in its term at the school, 0 where there is none.
#[derive(Clone, Copy, PartialEq, Eq)]
pub struct StudentEntry {
    pub row: StudentRow,
    pub newest: u32,
}

/// The position that a row tells, 0 where there is no row.
pub(crate) fn position_told(row: Option<u32>) -> u32
    ensures { result ≡ position_or row }
{
    row.unwrap_or(0)
}

/// The school that a row tells, nothing where there is no row.
pub(crate) fn school_told(row: Option<&SchoolEntry>) -> SchoolEntry
    ensures { result ≡ school_or (option_copied row.entry) }
{
    row.copied().unwrap_or(SchoolEntry {
        row: SchoolRow {
            at: 0,
            terms: 0,
            full: 0,
        },
        newest: 0,
    })
}

/// The student that a row tells, nothing where there is no row.
pub(crate) fn student_told(row: Option<&StudentEntry>) -> StudentEntry
    ensures { result ≡ student_or (option_copied row.entry) }
{
    row.copied().unwrap_or(StudentEntry {
        row: StudentRow {
            prior_at: 0,
            pell_at: 0,
            used: 0,
        },
        newest: 0,
    })
}

/// The place that a row tells, nothing where there is no row.
pub(crate) fn place_told(row: Option<&PlaceRow>) -> PlaceRow
    ensures { result ≡ place_or (option_copied row.entry) }
{
    match row {
        Some(row) => *row,
        None => PlaceRow {
            credits: 0,
            withdrawn_at: 0,
            could: ByProgram::EMPTY,
            determined: Day(-25_567),
            account: Account::EMPTY,
        },
    }
}

/// The year that a row tells, nothing where there is no row.
pub(crate) fn year_told(row: Option<&YearRow>) -> YearRow
    ensures { result ≡ year_or (option_copied row.entry) }
{
    match row {
        Some(row) => *row,
        None => YearRow {
            transaction: 0,
            application_at: 0,
            scheduled: 0,
            ceiling: Ceiling::NONE,
            nets: ByProgram::EMPTY,
            main: 0,
        },
    }
}

/// The school's year that a row tells, nothing where there is no row.
pub(crate) fn school_year_told(row: Option<&SchoolYearRow>) -> SchoolYearRow
    ensures { result ≡ school_year_or (option_copied row.entry) }
{
    row.copied().unwrap_or(SchoolYearRow {
        cost_at: 0,
        cost: 0,
        net: 0,
    })
}
