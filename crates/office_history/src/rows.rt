//! What is on file of one thing: a school, a term, a student, a student's year. A position counts from 1, and is 0 where there
//! is nothing; amounts are in cents, awards and costs in dollars, lifetime use in thousandths of a percent.
use crate::account::Account;
use aid_types::{ByProgram, Day, Term};
use law_pell::Ceiling;

/// A school: its position, its main terms in a year and its full-time credits.
#[derive(Clone, Copy, PartialEq, Eq)]
pub struct SchoolRow {
    pub at: u32,
    pub terms: u8,
    pub full: u8,
}

/// A school's term of a year and a number.
#[derive(Clone, Copy, PartialEq, Eq)]
pub struct TermRow {
    pub at: u32,
    pub term: Option<Term>,
}

/// What a school's terms say of a term that is to be filed: the position of the term of its year and number, that of the
/// earliest which shares a day with it, and how many main terms the school has in the year.
#[derive(Clone, Copy, PartialEq, Eq)]
pub struct CalendarRow {
    pub term_at: u32,
    pub overlap_at: u32,
    pub main_terms: u32,
}

/// A student's term at a school: the credits in force, the position of the withdrawal with what could have been disbursed
/// by it and the day on which it was determined, 1900-01-01 where there is none, and what moved.
#[derive(Clone, Copy, PartialEq, Eq)]
pub struct PlaceRow {
    pub credits: u8,
    pub withdrawn_at: u32,
    pub could: ByProgram,
    pub determined: Day,
    pub account: Account,
}

/// A student's year at all schools: the transaction and the position of the application in force with the Scheduled Award that
/// it gives and the ceiling that decides on it, all 0 where there is none; the nets by program, and the net Pell of the main terms.
#[derive(Clone, Copy, PartialEq, Eq)]
pub struct YearRow {
    pub transaction: u32,
    pub application_at: u32,
    pub scheduled: u32,
    pub ceiling: Ceiling,
    pub nets: ByProgram,
    pub main: u64,
}

/// A student's year at a school: the position of the origination, the cost of attendance in force, and the net of all programs.
#[derive(Clone, Copy, PartialEq, Eq)]
pub struct SchoolYearRow {
    pub cost_at: u32,
    pub cost: u32,
    pub net: u64,
}

/// A student: the positions of the use before this office and of the first Pell payment, and the lifetime units used.
#[derive(Clone, Copy, PartialEq, Eq)]
pub struct StudentRow {
    pub prior_at: u32,
    pub pell_at: u32,
    pub used: u32,
}
