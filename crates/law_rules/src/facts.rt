//! What the rules read of the filings so far.
use aid_types::{ByProgram, Day, Refusal, Term};

/// What the rules read of the filings that stand. A position counts from 1, and is 0 where there is nothing; amounts are
/// in cents, awards and costs in dollars, lifetime use in thousandths of a percent. 'The school' is that of the filing's
/// key, and 'the term' is its term of the filing's year and number.
#[derive(Clone, Copy, PartialEq, Eq)]
pub struct Facts {
    /// The number of filings.
    pub filings: u32,
    /// The position of the school, its main terms in a year and its full-time credits.
    pub school_at: u32,
    pub terms: u8,
    pub full: u8,
    /// The position of the school with the filed code.
    pub code_at: u32,
    /// The position of the year's book.
    pub book_at: u32,
    /// The position of the term, and the term.
    pub term_at: u32,
    pub term: Option<Term>,
    /// The position of the earliest term of the school that shares a day with the filed one, and how many main terms the
    /// school has on file in the year.
    pub overlap_at: u32,
    pub main_terms: u8,
    /// The positions of the student's prior use and of the student's first Pell payment.
    pub prior_at: u32,
    pub pell_at: u32,
    /// The transaction of the application in force and the Scheduled Award that it gives.
    pub transaction: u32,
    pub scheduled: u32,
    /// Its index and the least index at the year's ceiling, where the ceiling is why there is no award.
    pub ceiling_index: u32,
    pub ceiling_bound: u32,
    /// The position of the origination at the school in the year, and the cost of attendance in force.
    pub cost_at: u32,
    pub cost: u32,
    /// The credits in force in the term, 0 where the student isn't enrolled.
    pub credits: u8,
    /// The position of the student's withdrawal from the term.
    pub withdrawn_at: u32,
    /// The net of the filing's program in the term.
    pub net: u64,
    /// The net Pell of the term, of the year at all schools and of its main terms alone.
    pub pell_term: u64,
    pub pell_year: u64,
    pub pell_main: u64,
    /// The year's net FSEOG at all schools.
    pub fseog_year: u64,
    /// The net of all programs at the school in the year.
    pub net_all: u64,
    /// The prior units and the use of all other years.
    pub used_else: u32,
    /// The least code of another school with a term that shares a day with this one and holds net Pell of the student.
    pub other_school: u32,
    /// What was paid of the program, and of all programs, in the term after the withdrawal from it; the post-withdrawal
    /// amount, and what could have been disbursed of each program.
    pub after: u64,
    pub after_all: u64,
    pub post: u64,
    pub could: ByProgram,
    /// What the student owes of the program in the term, and what was repaid of it.
    pub owed: u64,
    pub repaid: u64,
    /// The day on which the school determined the withdrawal from the term, 1900-01-01 where there is none; what the
    /// withdrawal returns of the program in the term, and what was sent back of it.
    pub determined: Day,
    pub returned: u64,
    pub sent: u64,
    /// Why the filed application is out of range for the book.
    pub unfit: Option<Refusal>,
    /// The Scheduled Award that the filed application gives, 0 where it is out of range, and the first term that holds
    /// more net Pell than that award gives it.
    pub next_scheduled: u32,
    pub term_over: Option<Refusal>,
}

impl Facts {
    /// The facts where there is nothing.
    pub const EMPTY: Facts = Facts {
        filings: 0,
        school_at: 0,
        terms: 0,
        full: 0,
        code_at: 0,
        book_at: 0,
        term_at: 0,
        term: None,
        overlap_at: 0,
        main_terms: 0,
        prior_at: 0,
        pell_at: 0,
        transaction: 0,
        scheduled: 0,
        ceiling_index: 0,
        ceiling_bound: 0,
        cost_at: 0,
        cost: 0,
        credits: 0,
        withdrawn_at: 0,
        net: 0,
        pell_term: 0,
        pell_year: 0,
        pell_main: 0,
        fseog_year: 0,
        net_all: 0,
        used_else: 0,
        other_school: 0,
        after: 0,
        after_all: 0,
        post: 0,
        could: ByProgram::EMPTY,
        owed: 0,
        repaid: 0,
        determined: Day(-25_567),
        returned: 0,
        sent: 0,
        unfit: None,
        next_scheduled: 0,
        term_over: None,
    };
}
