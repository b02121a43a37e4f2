//! How the program is used.
use run_plan::Program;

/// How the aid office's words go, and the first words of the others.
pub(crate) const OFFICE: &str = "\
usage: aid_office JOURNAL found
       aid_office JOURNAL book NUMBER < BOOK.toml
       aid_office JOURNAL file < ROWS.csv
       aid_office JOURNAL desks ROWS.csv..
       aid_office JOURNAL serve PORT WORKERS SESSIONS
       aid_office JOURNAL quote SCHOOL STUDENT YEAR TERM
       aid_office JOURNAL report standing YEAR
       aid_office JOURNAL report awards YEAR
       aid_office JOURNAL report returns YEAR
       aid_office JOURNAL report lifetime
       aid_office JOURNAL report stamps
       aid_office JOURNAL report seal
       aid_office JOURNAL report seals
       aid_office JOURNAL report export YEAR
       aid_office JOURNAL fund SCHOOL YEAR TERM AMOUNT POLICY NUMBER
       aid_office JOURNAL generate SEED STUDENTS < BOOK.toml
       aid_office JOURNAL check rows < ROWS.csv
       aid_office JOURNAL check book < BOOK.toml
       aid_office JOURNAL upgrade JOURNAL-OF-VERSION-1
       aid_office JOURNAL at DAY CLERK amend OLD-JOURNAL NUMBER < CORRECTIONS.csv
       aid_office JOURNAL at DAY CLERK .. (any of these but upgrade, by this clerk on this day)
       aid_office loans JOURNAL .. (the Direct Loan desk)
       aid_office work JOURNAL .. (work-study)
       aid_office sheet JOURNAL .. (sheets, which file nothing)
       aid_office audit .. < EXPORT (the auditor)
       aid_office clock < ROWS.csv";

/// How the loan desk's words go.
const LOANS: &str = "\
usage: aid_office loans JOURNAL found
       aid_office loans JOURNAL file < ROWS.csv
       aid_office loans JOURNAL desks ROWS.csv..
       aid_office loans JOURNAL report seal
       aid_office loans JOURNAL report seals
       aid_office loans JOURNAL upto POSITION report .. (of the first so many filings)";

/// How the work-study desk's words go.
const WORK: &str = "\
usage: aid_office work JOURNAL found
       aid_office work JOURNAL file < ROWS.csv
       aid_office work JOURNAL round SCHOOL YEAR NUMBER < STUDENTS.csv
       aid_office work JOURNAL report seal
       aid_office work JOURNAL report seals
       aid_office work JOURNAL upto POSITION report .. (of the first so many filings)";

/// How the words of sheets go.
const SHEET: &str = "\
usage: aid_office sheet JOURNAL list
       aid_office sheet JOURNAL student STUDENT
       aid_office sheet JOURNAL need STUDENT YEAR
       aid_office sheet JOURNAL review STUDENT YEAR
       aid_office sheet JOURNAL quotes SCHOOL YEAR TERM
       aid_office sheet JOURNAL payments SCHOOL YEAR TERM
       aid_office sheet JOURNAL withdrawal SCHOOL STUDENT YEAR TERM
       aid_office sheet JOURNAL due DAY SCHOOL
       aid_office sheet JOURNAL returns SCHOOL YEAR
       aid_office sheet JOURNAL book show YEAR
       aid_office sheet JOURNAL changes OLD-JOURNAL
       aid_office sheet JOURNAL report .. (the reports of aid_office)
       aid_office sheet JOURNAL upto POSITION .. (any but changes, of the first so many filings)";

/// How the auditor's words go.
pub(crate) const AUDIT: &str = "\
usage: aid_office audit < EXPORT
       aid_office audit FILINGS SEAL < EXPORT
       aid_office audit whole < EXPORT
       aid_office audit whole FILINGS SEAL < EXPORT
       aid_office clock < ROWS.csv";

/// How the words go of whom they are.
pub(crate) fn usage_of(program: Program) -> &'static str {
    match program {
        Program::Office => OFFICE,
        Program::Loans => LOANS,
        Program::Work => WORK,
        Program::Sheet => SHEET,
    }
}
