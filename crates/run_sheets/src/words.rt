//! The row that words are. It takes no memory.
ghost use Rattle.std.specs.Prelude.{◌≡◌, ◌≢◌, ◌↔◌, ◌≤◌, ◌∷◌, [], IfSome, IsTrue, MatchOption, codes, decimal, length, map, string_bytes};
ghost use Rattle.run_words.specs.Words.{ReadsReport};
ghost use Rattle.run_sheets.specs.Words.{ReadsDay, ReadsPosition, ReadsRequest, ReadsRow, ReadsTerm};

use crate::request::{
    BookRequest, DueRequest, Position, ReturnsRequest, SheetRequest, SheetRow, StudentRequest,
    StudentYearRequest, TermRequest, WithdrawalRequest,
};
use aid_types::{Day, School, Student, Year};
use law_terms::read_day;
use run_words::{ReportRequest, number_in, report_request};

/// The row that the words are: a request, in front of which `upto POSITION` may stand. `None` where they are no row. Each
/// number has its one spelling.
pub fn row_of(words: &[String]) -> Option<SheetRow>
    ensures { ReadsRow (map string_bytes words.now) result }
{
    match words.split_first() {
        Some((first, behind)) => row_behind(first.as_str(), behind),
        None => None,
    }
}

// The row of a first word and the words behind it.
fn row_behind(first: &str, behind: &[String]) -> Option<SheetRow>
    ensures { ReadsRow (first.now ∷ map string_bytes behind.now) result }
{
    if is_same_word(first, "upto") {
        behind_upto(behind)
    } else {
        whole_row(first, behind)
    }
}

// The row of words without a position.
fn whole_row(first: &str, behind: &[String]) -> Option<SheetRow>
    requires { first.now ≢ codes "upto" }
    ensures { ReadsRow (first.now ∷ map string_bytes behind.now) result }
{
    match request_named(first, behind) {
        Some(request) => Some(SheetRow {
            upto: None,
            request,
        }),
        None => None,
    }
}

// The row of the words behind `upto`.
fn behind_upto(behind: &[String]) -> Option<SheetRow>
    ensures { ReadsRow (codes "upto" ∷ map string_bytes behind.now) result }
{
    match behind.split_first() {
        Some((position, words)) => row_at(position.as_str(), words),
        None => None,
    }
}

// The row of a position and the words behind it.
fn row_at(word: &str, words: &[String]) -> Option<SheetRow>
    ensures { ReadsRow (codes "upto" ∷ word.now ∷ map string_bytes words.now) result }
{
    match position_of(word) {
        Some(position) => row_upto(position, words),
        None => None,
    }
}

fn row_upto(position: Position, words: &[String]) -> Option<SheetRow>
    ensures { ReadsRow (codes "upto" ∷ decimal position.number ∷ map string_bytes words.now) result }
{
    match request_of(words) {
        Some(request) => Some(SheetRow {
            upto: Some(position),
            request,
        }),
        None => None,
    }
}

// The position that a word spells.
fn position_of(word: &str) -> Option<Position>
    ensures { ReadsPosition word.now result }
{
    Some(Position {
        number: number_in(word, 1, 4_294_967_295)? as u32,
    })
}

// The request that the words are.
fn request_of(words: &[String]) -> Option<SheetRequest>
    ensures { ReadsRequest (map string_bytes words.now) result }
{
    match words.split_first() {
        Some((name, behind)) => request_named(name.as_str(), behind),
        None => None,
    }
}

// The request of a name and the words behind it.
fn request_named(name: &str, behind: &[String]) -> Option<SheetRequest>
    ensures { ReadsRequest (name.now ∷ map string_bytes behind.now) result }
{
    if is_same_word(name, "list") {
        read_list(behind)
    } else if is_same_word(name, "student") {
        read_student(behind)
    } else if is_same_word(name, "need") {
        read_need(behind)
    } else {
        other_request(name, behind)
    }
}

// The same of the names that are left.
fn other_request(name: &str, behind: &[String]) -> Option<SheetRequest>
    requires not_list { name.now ≢ codes "list" }
    requires not_student { name.now ≢ codes "student" }
    requires not_need { name.now ≢ codes "need" }
    ensures { ReadsRequest (name.now ∷ map string_bytes behind.now) result }
{
    if is_same_word(name, "quotes") {
        read_quotes(behind)
    } else if is_same_word(name, "payments") {
        read_payments(behind)
    } else {
        last_request(name, behind)
    }
}

// And of those that are left then.
fn last_request(name: &str, behind: &[String]) -> Option<SheetRequest>
    requires not_list { name.now ≢ codes "list" }
    requires not_student { name.now ≢ codes "student" }
    requires not_need { name.now ≢ codes "need" }
    requires not_quotes { name.now ≢ codes "quotes" }
    requires not_payments { name.now ≢ codes "payments" }
    ensures { ReadsRequest (name.now ∷ map string_bytes behind.now) result }
{
    if is_same_word(name, "withdrawal") {
        read_withdrawal(behind)
    } else if is_same_word(name, "report") {
        read_report(behind)
    } else {
        request_of_returns(name, behind)
    }
}

// And of those of returns.
fn request_of_returns(name: &str, behind: &[String]) -> Option<SheetRequest>
    requires not_list { name.now ≢ codes "list" }
    requires not_student { name.now ≢ codes "student" }
    requires not_need { name.now ≢ codes "need" }
    requires not_quotes { name.now ≢ codes "quotes" }
    requires not_payments { name.now ≢ codes "payments" }
    requires not_withdrawal { name.now ≢ codes "withdrawal" }
    requires not_report { name.now ≢ codes "report" }
    ensures { ReadsRequest (name.now ∷ map string_bytes behind.now) result }
{
    if is_same_word(name, "due") {
        read_due(behind)
    } else if is_same_word(name, "returns") {
        read_returns(behind)
    } else {
        request_of_book(name, behind)
    }
}

// And of that of the book.
fn request_of_book(name: &str, behind: &[String]) -> Option<SheetRequest>
    requires not_list { name.now ≢ codes "list" }
    requires not_student { name.now ≢ codes "student" }
    requires not_need { name.now ≢ codes "need" }
    requires not_quotes { name.now ≢ codes "quotes" }
    requires not_payments { name.now ≢ codes "payments" }
    requires not_withdrawal { name.now ≢ codes "withdrawal" }
    requires not_report { name.now ≢ codes "report" }
    requires not_due { name.now ≢ codes "due" }
    requires not_returns { name.now ≢ codes "returns" }
    ensures { ReadsRequest (name.now ∷ map string_bytes behind.now) result }
{
    if is_same_word(name, "book") {
        read_book(behind)
    } else {
        request_of_review(name, behind)
    }
}

// And of that of the review, which is left at last.
fn request_of_review(name: &str, behind: &[String]) -> Option<SheetRequest>
    requires not_list { name.now ≢ codes "list" }
    requires not_student { name.now ≢ codes "student" }
    requires not_need { name.now ≢ codes "need" }
    requires not_quotes { name.now ≢ codes "quotes" }
    requires not_payments { name.now ≢ codes "payments" }
    requires not_withdrawal { name.now ≢ codes "withdrawal" }
    requires not_report { name.now ≢ codes "report" }
    requires not_due { name.now ≢ codes "due" }
    requires not_returns { name.now ≢ codes "returns" }
    requires not_book { name.now ≢ codes "book" }
    ensures { ReadsRequest (name.now ∷ map string_bytes behind.now) result }
{
    if is_same_word(name, "review") {
        read_review(behind)
    } else {
        None
    }
}

// Whether the two are one word.
fn is_same_word(one: &str, other: &str) -> bool
    ensures { IsTrue result ↔ (one.now ≡ other.now) }
{
    one == other
}

// The word, where it is the only one.
fn only_word(words: &[String]) -> Option<&str>
    ensures { MatchOption result (length (map string_bytes words.now) ≢ 1) (λ word. map string_bytes words.now ≡ word.now ∷ []) }
{
    match words {
        [word] => Some(word.as_str()),
        _ => None,
    }
}

// The words, where there are two.
fn two_words(words: &[String]) -> Option<(&str, &str)>
    ensures { MatchOption result (length (map string_bytes words.now) ≢ 2) (λ r. map string_bytes words.now ≡ r.0.now ∷ r.1.now ∷ []) }
{
    match words {
        [one, other] => Some((one.as_str(), other.as_str())),
        _ => None,
    }
}

// The words, where there are three.
fn three_words(words: &[String]) -> Option<(&str, &str, &str)>
    ensures { MatchOption result (length (map string_bytes words.now) ≢ 3) (λ r. map string_bytes words.now ≡ r.0.now ∷ r.1.now ∷ r.2.now ∷ []) }
{
    match words {
        [one, two, three] => Some((one.as_str(), two.as_str(), three.as_str())),
        _ => None,
    }
}

// The words, where there are four.
fn four_words(words: &[String]) -> Option<(&str, &str, &str, &str)>
    ensures { MatchOption result (length (map string_bytes words.now) ≢ 4) (λ r. map string_bytes words.now ≡ r.0.now ∷ r.1.now ∷ r.2.now ∷ r.3.now ∷ []) }
{
    match words {
        [one, two, three, four] => {
            Some((one.as_str(), two.as_str(), three.as_str(), four.as_str()))
        }
        _ => None,
    }
}

// The list, behind whose name nothing stands.
fn read_list(behind: &[String]) -> Option<SheetRequest>
    ensures { ReadsRequest (codes "list" ∷ map string_bytes behind.now) result }
{
    if behind.is_empty() {
        Some(SheetRequest::List)
    } else {
        None
    }
}

// The ledger of a student.
fn read_student(behind: &[String]) -> Option<SheetRequest>
    ensures { ReadsRequest (codes "student" ∷ map string_bytes behind.now) result }
{
    student_request(only_word(behind)?)
}

fn student_request(student: &str) -> Option<SheetRequest>
    ensures { ReadsRequest (codes "student" ∷ student.now ∷ []) result }
{
    Some(SheetRequest::Student(StudentRequest {
        student: Student(number_in(student, 1, 999_999_999_999)?),
    }))
}

// The need of a student in a year.
fn read_need(behind: &[String]) -> Option<SheetRequest>
    ensures { ReadsRequest (codes "need" ∷ map string_bytes behind.now) result }
{
    let (student, year) = two_words(behind)?;
    need_request(student, year)
}

fn need_request(student: &str, year: &str) -> Option<SheetRequest>
    ensures { ReadsRequest (codes "need" ∷ student.now ∷ year.now ∷ []) result }
{
    Some(SheetRequest::Need(StudentYearRequest {
        student: Student(number_in(student, 1, 999_999_999_999)?),
        year: Year(number_in(year, 2000, 2099)? as u16),
    }))
}

// The review of a student's year.
fn read_review(behind: &[String]) -> Option<SheetRequest>
    ensures { ReadsRequest (codes "review" ∷ map string_bytes behind.now) result }
{
    let (student, year) = two_words(behind)?;
    review_request(student, year)
}

fn review_request(student: &str, year: &str) -> Option<SheetRequest>
    ensures { ReadsRequest (codes "review" ∷ student.now ∷ year.now ∷ []) result }
{
    Some(SheetRequest::Review(StudentYearRequest {
        student: Student(number_in(student, 1, 999_999_999_999)?),
        year: Year(number_in(year, 2000, 2099)? as u16),
    }))
}

// The quotes of a term of a school.
fn read_quotes(behind: &[String]) -> Option<SheetRequest>
    ensures { ReadsRequest (codes "quotes" ∷ map string_bytes behind.now) result }
{
    match term_of(behind) {
        Some(term) => Some(SheetRequest::Quotes(term)),
        None => None,
    }
}

// Its payments.
fn read_payments(behind: &[String]) -> Option<SheetRequest>
    ensures { ReadsRequest (codes "payments" ∷ map string_bytes behind.now) result }
{
    match term_of(behind) {
        Some(term) => Some(SheetRequest::Payments(term)),
        None => None,
    }
}

// The term of a school that the words are.
fn term_of(words: &[String]) -> Option<TermRequest>
    ensures { ReadsTerm (map string_bytes words.now) result }
{
    let (school, year, term) = three_words(words)?;
    term_request(school, year, term)
}

fn term_request(school: &str, year: &str, term: &str) -> Option<TermRequest>
    ensures { ReadsTerm (school.now ∷ year.now ∷ term.now ∷ []) result }
{
    Some(TermRequest {
        school: School(number_in(school, 1, 999_999)? as u32),
        year: Year(number_in(year, 2000, 2099)? as u16),
        term: number_in(term, 1, 8)? as u8,
    })
}

// The withdrawal of a student from a term of a school.
fn read_withdrawal(behind: &[String]) -> Option<SheetRequest>
    ensures { ReadsRequest (codes "withdrawal" ∷ map string_bytes behind.now) result }
{
    let (school, student, year, term) = four_words(behind)?;
    withdrawal_request(school, student, year, term)
}

fn withdrawal_request(school: &str, student: &str, year: &str, term: &str) -> Option<SheetRequest>
    ensures { ReadsRequest (codes "withdrawal" ∷ school.now ∷ student.now ∷ year.now ∷ term.now ∷ []) result }
{
    Some(SheetRequest::Withdrawal(WithdrawalRequest {
        school: School(number_in(school, 1, 999_999)? as u32),
        student: Student(number_in(student, 1, 999_999_999_999)?),
        year: Year(number_in(year, 2000, 2099)? as u16),
        term: number_in(term, 1, 8)? as u8,
    }))
}

// What a school has to send back on a day.
fn read_due(behind: &[String]) -> Option<SheetRequest>
    ensures { ReadsRequest (codes "due" ∷ map string_bytes behind.now) result }
{
    let (day, school) = two_words(behind)?;
    due_request(day, school)
}

fn due_request(day: &str, school: &str) -> Option<SheetRequest>
    ensures { ReadsRequest (codes "due" ∷ day.now ∷ school.now ∷ []) result }
{
    Some(SheetRequest::Due(DueRequest {
        day: day_of(day)?,
        school: School(number_in(school, 1, 999_999)? as u32),
    }))
}

// The day that a word spells.
fn day_of(word: &str) -> Option<Day>
    ensures value { ReadsDay word.now result }
    ensures in_range { IfSome result (λ day. day ≤ 2958463) }
{
    match read_day(word.as_bytes()) {
        Ok(day) => Some(day),
        Err(_) => None,
    }
}

// The returns of a school's year.
fn read_returns(behind: &[String]) -> Option<SheetRequest>
    ensures { ReadsRequest (codes "returns" ∷ map string_bytes behind.now) result }
{
    let (school, year) = two_words(behind)?;
    returns_request(school, year)
}

fn returns_request(school: &str, year: &str) -> Option<SheetRequest>
    ensures { ReadsRequest (codes "returns" ∷ school.now ∷ year.now ∷ []) result }
{
    Some(SheetRequest::Returns(ReturnsRequest {
        school: School(number_in(school, 1, 999_999)? as u32),
        year: Year(number_in(year, 2000, 2099)? as u16),
    }))
}

// The year's book.
fn read_book(behind: &[String]) -> Option<SheetRequest>
    ensures { ReadsRequest (codes "book" ∷ map string_bytes behind.now) result }
{
    let (word, year) = two_words(behind)?;
    book_request(word, year)
}

fn book_request(word: &str, year: &str) -> Option<SheetRequest>
    ensures { ReadsRequest (codes "book" ∷ word.now ∷ year.now ∷ []) result }
{
    if is_same_word(word, "show") {
        show_request(year)
    } else {
        None
    }
}

fn show_request(year: &str) -> Option<SheetRequest>
    ensures { ReadsRequest (codes "book" ∷ codes "show" ∷ year.now ∷ []) result }
{
    Some(SheetRequest::Book(BookRequest {
        year: Year(number_in(year, 2000, 2099)? as u16),
    }))
}

// A report of the aid office.
fn read_report(behind: &[String]) -> Option<SheetRequest>
    ensures { ReadsRequest (codes "report" ∷ map string_bytes behind.now) result }
{
    match report_of(behind) {
        Some(report) => Some(SheetRequest::Report(report)),
        None => None,
    }
}

// The report of the words behind `report`: of a year, or of none.
fn report_of(behind: &[String]) -> Option<ReportRequest>
    ensures { ReadsReport (map string_bytes behind.now) result }
{
    match only_word(behind) {
        Some(report) => report_alone(report),
        None => report_behind(behind),
    }
}

// The report of a year, of words that aren't one.
fn report_behind(behind: &[String]) -> Option<ReportRequest>
    requires { length (map string_bytes behind.now) ≢ 1 }
    ensures { ReadsReport (map string_bytes behind.now) result }
{
    let (report, year) = two_words(behind)?;
    report_request(report, year)
}

// The report that has no year.
fn report_alone(report: &str) -> Option<ReportRequest>
    ensures { ReadsReport (report.now ∷ []) result }
{
    if is_same_word(report, "lifetime") {
        Some(ReportRequest::Lifetime)
    } else if is_same_word(report, "stamps") {
        Some(ReportRequest::Stamps)
    } else if is_same_word(report, "seal") {
        Some(ReportRequest::Seal)
    } else if is_same_word(report, "seals") {
        Some(ReportRequest::Seals)
    } else {
        None
    }
}
