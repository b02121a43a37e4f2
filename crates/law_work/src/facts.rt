// What a filing is judged on.

/// What a filing is judged on: how many filings stand, and what is on file for its school, its award year and its student. A
/// position is 0 where nothing stands.
#[derive(Clone, Copy)]
pub struct WorkFacts {
    pub count: u32,
    /// The school's fund of the year: its position, and its dollars.
    pub fund_at: u32,
    pub fund: u32,
    /// All awards in force of that fund, in dollars.
    pub awards: u32,
    /// The position of the student's award there, and the award in force, in dollars.
    pub award_at: u32,
    pub award: u32,
    /// What the student earned there, in cents.
    pub earned: u64,
}

/// With what a filing is admitted.
#[derive(Clone, Copy, PartialEq, Eq)]
pub enum WorkOutcome {
    Noted,
    /// What the student earned there in the year, with this, and what is left of the award in force, in cents.
    Earned { earned: u64, left: u64 },
}
