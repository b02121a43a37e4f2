//! The sheets that can be asked for, and the words that say them.
ghost use Rattle.std.specs.Prelude.{◌≤◌};
ghost use Rattle.aid_types.specs.Ranges.{IsBetween};

use aid_types::{Day, School, Student, Year};
use run_words::ReportRequest;

/// The student whose ledger is asked for: 1 to 999,999,999,999.
#[derive(Clone, Copy)]
pub struct StudentRequest {
    pub student: Student,
    pub ghost in_range: { IsBetween 1 999999999999 student },
}

/// The student and the award year whose worksheet or review is asked for: the year is 2000 to 2099.
#[derive(Clone, Copy)]
pub struct StudentYearRequest {
    pub student: Student,
    pub year: Year,
    pub ghost in_range: { IsBetween 1 999999999999 student × IsBetween 2000 2099 year },
}

/// The term of a school whose quotes or payments are asked for: the school is 1 to 999,999, the year 2000 to 2099, the term 1 to 8.
#[derive(Clone, Copy)]
pub struct TermRequest {
    pub school: School,
    pub year: Year,
    pub term: u8,
    pub ghost in_range: { IsBetween 1 999999 school × IsBetween 2000 2099 year × IsBetween 1 8 term },
}

/// The student's term whose withdrawal is asked for, in the ranges of the others.
#[derive(Clone, Copy)]
pub struct WithdrawalRequest {
    pub school: School,
    pub student: Student,
    pub year: Year,
    pub term: u8,
    pub ghost in_range: { (IsBetween 1 999999 school × IsBetween 1 999999999999 student) × (IsBetween 2000 2099 year × IsBetween 1 8 term) },
}

/// The school whose open returns are asked for, and the day on which they are looked at.
#[derive(Clone, Copy)]
pub struct DueRequest {
    pub day: Day,
    pub school: School,
    pub ghost in_range: { (day ≤ 2958463) × IsBetween 1 999999 school },
}

/// The school and the award year whose returns are asked for, in the ranges of the others.
#[derive(Clone, Copy)]
pub struct ReturnsRequest {
    pub school: School,
    pub year: Year,
    pub ghost in_range: { IsBetween 1 999999 school × IsBetween 2000 2099 year },
}

/// The award year whose book is asked for: 2000 to 2099.
#[derive(Clone, Copy)]
pub struct BookRequest {
    pub year: Year,
    pub ghost in_range: { IsBetween 2000 2099 year },
}

/// The sheet that is asked for.
#[derive(Clone, Copy)]
pub enum SheetRequest {
    /// `list`: all filings, each as its row behind its stamp.
    List,
    /// `student STUDENT`: the ledger of a student.
    Student(StudentRequest),
    /// `need STUDENT YEAR`: how the index and the award of a student in a year came about.
    Need(StudentYearRequest),
    /// `review STUDENT YEAR`: what is on file of a student's year, as one text.
    Review(StudentYearRequest),
    /// `quotes SCHOOL YEAR TERM`: what the students of a term could be paid of Pell.
    Quotes(TermRequest),
    /// `payments SCHOOL YEAR TERM`: what moved of each program in a term, with running totals.
    Payments(TermRequest),
    /// `withdrawal SCHOOL STUDENT YEAR TERM`: the worksheet of a return of funds.
    Withdrawal(WithdrawalRequest),
    /// `due DAY SCHOOL`: what a school has to send back and hasn't sent yet.
    Due(DueRequest),
    /// `returns SCHOOL YEAR`: what came of the returns of a school's year.
    Returns(ReturnsRequest),
    /// `book show YEAR`: the year's book on file, as the text that files it.
    Book(BookRequest),
    /// `report standing YEAR`, and the other reports of the aid office.
    Report(ReportRequest),
}

/// A position in the list: 1 to 4,294,967,295.
#[derive(Clone, Copy)]
pub struct Position {
    pub number: u32,
    pub ghost in_range: { IsBetween 1 4294967295 number },
}

/// A row of words: the sheet that is asked for, of the whole list, or of the list as it stood when its last filing was at this
/// position.
#[derive(Clone, Copy)]
pub struct SheetRow {
    pub upto: Option<Position>,
    pub request: SheetRequest,
}
