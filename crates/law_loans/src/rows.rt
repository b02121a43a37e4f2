//! What the rows of the index tell.
ghost use Rattle.std.specs.Prelude.{◌≡◌};
ghost use Rattle.law_loans.specs.Rows.{limits_or, student_or, year_or};

use crate::{BeforeFacts, BorrowerFacts, LimitFacts};

/// The nets of loans by program, in cents.
#[derive(Clone, Copy, PartialEq, Eq)]
pub struct ProgramNets {
    pub sub: u64,
    pub unsub: u64,
}

/// The limits of a year, those that were filed first, and their position; 0 where there are none.
#[derive(Clone, Copy)]
pub struct LimitsRow {
    pub at: u32,
    pub limits: Option<LimitFacts>,
}

/// What stands of a student: the last record, of whatever year, what was borrowed before this office and its position, the
/// position of the first loan, and the nets of all years. A position is 0 where nothing stands.
#[derive(Clone, Copy)]
pub struct StudentRow {
    pub last: Option<BorrowerFacts>,
    pub before_at: u32,
    pub before: Option<BeforeFacts>,
    pub loan_at: u32,
    pub nets: ProgramNets,
}

/// What stands of a student's year: the record in force and the nets.
#[derive(Clone, Copy)]
pub struct YearRow {
    pub in_force: Option<BorrowerFacts>,
    pub nets: ProgramNets,
}

const NO_NETS: ProgramNets = ProgramNets { sub: 0, unsub: 0 };

/// The limits that a row tells, none where there is no row.
pub(crate) fn limits_told(row: Option<LimitsRow>) -> LimitsRow
    ensures { result ≡ limits_or row }
{
    match row {
        Some(row) => row,
        None => LimitsRow {
            at: 0,
            limits: None,
        },
    }
}

/// The student that a row tells, nothing where there is no row.
pub(crate) fn student_told(row: Option<StudentRow>) -> StudentRow
    ensures { result ≡ student_or row }
{
    match row {
        Some(row) => row,
        None => StudentRow {
            last: None,
            before_at: 0,
            before: None,
            loan_at: 0,
            nets: NO_NETS,
        },
    }
}

/// The student's year that a row tells, nothing where there is no row.
pub(crate) fn year_told(row: Option<YearRow>) -> YearRow
    ensures { result ≡ year_or row }
{
    match row {
        Some(row) => row,
        None => YearRow {
            in_force: None,
            nets: NO_NETS,
        },
    }
}
