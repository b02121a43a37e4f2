//! What the program is told to do.
ghost use Rattle.std.specs.Prelude.{◌≤◌};
ghost use Rattle.aid_types.specs.Ranges.{IsBetween};

use aid_stamps::Stamp;
use aid_types::{School, Student, Year};

/// The number that the office's desk gives to a book that it files: 1 to 999,999,999,999.
#[derive(Clone, Copy, PartialEq, Eq)]
pub struct BookNumber {
    pub number: u64,
    pub ghost in_range: { IsBetween 1 999999999999 number },
}

/// The payment that is asked about: the term is 1 to 8.
#[derive(Clone, Copy, PartialEq, Eq)]
pub struct QuoteRequest {
    pub school: School,
    pub student: Student,
    pub year: Year,
    pub term: u8,
    pub ghost in_range: { (school ≤ 999999) × IsBetween 1 999999999999 student
        × IsBetween 2000 2099 year × IsBetween 1 8 term },
}

/// The award year that a report is of.
#[derive(Clone, Copy, PartialEq, Eq)]
pub struct ReportYear {
    pub year: Year,
    pub ghost in_range: { IsBetween 2000 2099 year },
}

/// The report that is asked for.
#[derive(Clone, Copy, PartialEq, Eq)]
pub enum ReportRequest {
    /// `standing YEAR`: where each student with an application in the year stands.
    Standing(ReportYear),
    /// `awards YEAR`: what each student has of each program in each term of the year.
    Awards(ReportYear),
    /// `returns YEAR`: the withdrawals in the year.
    Returns(ReportYear),
    /// `lifetime`: the lifetime units of each student who used some.
    Lifetime,
    /// `stamps`: the stamp of each filing.
    Stamps,
    /// `seal`: the seal of all filings and stamps.
    Seal,
    /// `seals`: the seal of each front of the list.
    Seals,
    /// `export YEAR`: all filings, and where each student with an application in the year stands.
    Export(ReportYear),
}

/// The generated year that is asked for: so many students, 1 to 20,000, drawn from a seed.
#[derive(Clone, Copy, PartialEq, Eq)]
pub struct GenerateRequest {
    pub seed: u64,
    pub students: u16,
    pub ghost in_range: { (seed ≤ 999999999999) × IsBetween 1 20000 students },
}

/// The award round that is asked for: the fund in whole dollars, the place of the policy among those that are known, and the
/// number of the first award's key.
#[derive(Clone, Copy, PartialEq, Eq)]
pub struct FundRequest {
    pub school: School,
    pub year: Year,
    pub term: u8,
    pub amount: u32,
    pub policy: usize,
    pub number: u64,
    pub ghost in_range: { (school ≤ 999999) × IsBetween 2000 2099 year × IsBetween 1 8 term
        × IsBetween 1 99999999 amount × IsBetween 1 999999000000 number },
}

/// A command of the program, by its row of words.
#[derive(Clone, Copy, PartialEq, Eq)]
pub enum Command {
    /// `found`: to found an office in the file.
    Found,
    /// `file`: to file the rows of the input.
    File,
    /// `book NUMBER`: to file the text of the input as the book of that number.
    Book(BookNumber),
    /// `quote SCHOOL STUDENT YEAR TERM`: to say the greatest Pell payment that the office would take.
    Quote(QuoteRequest),
    /// `report standing YEAR`, `report awards YEAR`, `report returns YEAR`, `report lifetime`, `report stamps`,
    /// `report seal`, `report seals`, `report export YEAR`: to write a report on the office.
    Report(ReportRequest),
    /// `fund SCHOOL YEAR TERM AMOUNT POLICY NUMBER`: to file the awards of a round.
    Fund(FundRequest),
    /// `generate SEED STUDENTS`: to file a generated year, whose book is the text of the input.
    Generate(GenerateRequest),
    /// `check rows`: to read the rows of the input, and file none.
    CheckRows,
    /// `check book`: to read the text of the input as a book, and not file it.
    CheckBook,
}

/// A command, and the stamp in front of its row.
#[derive(Clone, Copy, PartialEq, Eq)]
pub struct StampedCommand {
    pub stamp: Stamp,
    pub command: Command,
}

/// The call of the program that a row of words needs, with the stamp in front of the row.
#[derive(Clone, Copy, PartialEq, Eq)]
pub enum MainRow {
    /// A run over one input, or over none.
    Run,
    /// `desks FILE..`: the files are filed at once, 1 to 16 of them.
    Desks {
        files: u32,
        stamp: Stamp,
    },
    /// `serve PORT WORKERS SESSIONS`: so many workers, 1 to 16, answer requests on a port of this machine, each over so many
    /// connections one after the other.
    Serve {
        port: u16,
        workers: u8,
        sessions: u32,
        stamp: Stamp,
    },
    /// `upgrade FILE`: the journal of an older version in the file is copied. No stamp stands in front.
    Upgrade,
    /// `at DAY CLERK amend FILE NUMBER`: the journal in the file is copied with corrections.
    Amend,
    /// `changes FILE`, of a sheet: what differs between the journal in the file and this one is told.
    Changes,
}
