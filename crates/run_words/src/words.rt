//! The command of a row of words.
ghost use Rattle.std.specs.Prelude.{◌≡◌, ◌≢◌, ◌↔◌, ◌∷◌, [], IfOk, IfSome, IsTrue, None, Some, codes, map, string_bytes};
ghost use Rattle.std.specs.List.{position};
ghost use Rattle.std.specs.Str.{bytes_eq};
ghost use Rattle.run_words.specs.Words.{ArePlain, IsRow, Reads, ReadsFund, ReadsGenerate, ReadsOf, ReadsQuote, ReadsReport, ReadsYear};
ghost use Rattle.run_words.specs.declared.command.Command.{Command as CommandData};

use crate::behind::{fund_words, generate_words, is_alone, number_behind, quote_words};
use crate::command::{
    BookNumber, Command, FundRequest, GenerateRequest, QuoteRequest, ReportRequest, ReportYear,
};
use crate::hyphen::are_plain;
use crate::number::number_in;
use aid_types::{School, Student, Year};
use law_funds::Policies;
use std::alloc::{AllocError, Global};

/// The command that the words are the row of with nothing in front, where these policies are known; `None` where they are no row of
/// the program's. An `Err` is want of memory.
pub(crate) fn command_in(
    alloc: Global,
    words: &[String],
    policies: &Policies,
) -> Result<Option<Command>, AllocError>
    ensures words { IfOk result (λ r. IfSome r (λ c. IsRow (map (λ p. p.name) policies.now.list.items) (map string_bytes words.now) c)) }
    ensures none { IfOk result (λ r. r ≡ None → (c : CommandData) → ¬ (IsRow (map (λ p. p.name) policies.now.list.items) (map string_bytes words.now) c)) }
    ensures only { (c : CommandData) → IsRow (map (λ p. p.name) policies.now.list.items) (map string_bytes words.now) c → IfOk result (λ r. r ≡ Some c) }
{
    if !are_plain(words) {
        return Ok(None);
    }
    match words.split_first() {
        Some((name, behind)) => command_named(alloc, policies, name.as_str(), behind),
        None => Ok(None),
    }
}

// The command of a name and the words behind it.
fn command_named(
    alloc: Global,
    policies: &Policies,
    name: &str,
    behind: &[String],
) -> Result<Option<Command>, AllocError>
    requires { ArePlain (map string_bytes behind.now) }
    ensures { IfOk result (ReadsOf (map (λ p. p.name) policies.now.list.items) (name.now ∷ map string_bytes behind.now)) }
{
    if is_same_word(name, "quote") {
        read_quote(alloc, behind)
    } else if is_same_word(name, "fund") {
        read_fund(alloc, policies, behind)
    } else if is_same_word(name, "generate") {
        read_generate(alloc, behind)
    } else if is_same_word(name, "book") {
        read_book(alloc, behind)
    } else {
        command_without_numbers(alloc, name, behind)
    }
}

// The same of the names that are left.
fn command_without_numbers(
    alloc: Global,
    name: &str,
    behind: &[String],
) -> Result<Option<Command>, AllocError>
    requires plain { ArePlain (map string_bytes behind.now) }
    requires not_quote { name.now ≢ codes "quote" }
    requires not_fund { name.now ≢ codes "fund" }
    requires not_generate { name.now ≢ codes "generate" }
    requires not_book { name.now ≢ codes "book" }
    ensures { IfOk result (Reads (name.now ∷ map string_bytes behind.now)) }
{
    if is_same_word(name, "found") {
        read_found(alloc, behind)
    } else if is_same_word(name, "file") {
        read_file(alloc, behind)
    } else if is_same_word(name, "check") {
        read_check(alloc, behind)
    } else if is_same_word(name, "report") {
        read_report(alloc, behind)
    } else {
        Ok(None)
    }
}

// Whether the two are one word.
fn is_same_word(one: &str, other: &str) -> bool
    ensures { IsTrue result ↔ (one.now ≡ other.now) }
{
    one == other
}

// The command to found an office, of the words behind its name.
fn read_found(alloc: Global, behind: &[String]) -> Result<Option<Command>, AllocError>
    requires { ArePlain (map string_bytes behind.now) }
    ensures { IfOk result (Reads (codes "found" ∷ map string_bytes behind.now)) }
{
    if is_alone(alloc, "found", behind)? {
        Ok(Some(Command::Found))
    } else {
        Ok(None)
    }
}

// The command to file rows.
fn read_file(alloc: Global, behind: &[String]) -> Result<Option<Command>, AllocError>
    requires { ArePlain (map string_bytes behind.now) }
    ensures { IfOk result (Reads (codes "file" ∷ map string_bytes behind.now)) }
{
    if is_alone(alloc, "file", behind)? {
        Ok(Some(Command::File))
    } else {
        Ok(None)
    }
}

// The command to file a book, of the words behind its name.
fn read_book(alloc: Global, behind: &[String]) -> Result<Option<Command>, AllocError>
    requires { ArePlain (map string_bytes behind.now) }
    ensures { IfOk result (Reads (codes "book" ∷ map string_bytes behind.now)) }
{
    match number_behind(alloc, "book", behind)? {
        Some(number) => Ok(book_command(number)),
        None => Ok(None),
    }
}

// The command to file a book.
fn book_command(number: &str) -> Option<Command>
    ensures { Reads (codes "book" ∷ number.now ∷ []) result }
{
    let number = number_in(number, 1, 999_999_999_999)?;
    Some(Command::Book(BookNumber { number }))
}

// The command to check an input, of the words behind its name.
fn read_check(alloc: Global, behind: &[String]) -> Result<Option<Command>, AllocError>
    requires { ArePlain (map string_bytes behind.now) }
    ensures { IfOk result (Reads (codes "check" ∷ map string_bytes behind.now)) }
{
    match behind.split_first() {
        Some((what, more)) => read_check_of(alloc, what.as_str(), more),
        None => Ok(None),
    }
}

// The command to check rows or a book.
fn read_check_of(
    alloc: Global,
    what: &str,
    behind: &[String],
) -> Result<Option<Command>, AllocError>
    requires { ArePlain (map string_bytes behind.now) }
    ensures { IfOk result (Reads (codes "check" ∷ what.now ∷ map string_bytes behind.now)) }
{
    if is_same_word(what, "rows") {
        read_check_rows(alloc, behind)
    } else if is_same_word(what, "book") {
        read_check_book(alloc, behind)
    } else {
        Ok(None)
    }
}

fn read_check_rows(alloc: Global, behind: &[String]) -> Result<Option<Command>, AllocError>
    requires { ArePlain (map string_bytes behind.now) }
    ensures { IfOk result (Reads (codes "check" ∷ codes "rows" ∷ map string_bytes behind.now)) }
{
    if is_alone(alloc, "rows", behind)? {
        Ok(Some(Command::CheckRows))
    } else {
        Ok(None)
    }
}

fn read_check_book(alloc: Global, behind: &[String]) -> Result<Option<Command>, AllocError>
    requires { ArePlain (map string_bytes behind.now) }
    ensures { IfOk result (Reads (codes "check" ∷ codes "book" ∷ map string_bytes behind.now)) }
{
    if is_alone(alloc, "book", behind)? {
        Ok(Some(Command::CheckBook))
    } else {
        Ok(None)
    }
}

// The command to write a report, of the words behind its name.
fn read_report(alloc: Global, behind: &[String]) -> Result<Option<Command>, AllocError>
    requires { ArePlain (map string_bytes behind.now) }
    ensures { IfOk result (Reads (codes "report" ∷ map string_bytes behind.now)) }
{
    match read_report_words(alloc, behind)? {
        Some(report) => Ok(Some(Command::Report(report))),
        None => Ok(None),
    }
}

// The report that is asked for, of all words behind `report`.
fn read_report_words(alloc: Global, behind: &[String]) -> Result<Option<ReportRequest>, AllocError>
    requires { ArePlain (map string_bytes behind.now) }
    ensures { IfOk result (ReadsReport (map string_bytes behind.now)) }
{
    match behind.split_first() {
        Some((report, more)) => read_report_of(alloc, report.as_str(), more),
        None => Ok(None),
    }
}

// The report of a name and the words behind it.
fn read_report_of(
    alloc: Global,
    report: &str,
    behind: &[String],
) -> Result<Option<ReportRequest>, AllocError>
    requires { ArePlain (map string_bytes behind.now) }
    ensures { IfOk result (ReadsReport (report.now ∷ map string_bytes behind.now)) }
{
    if is_same_word(report, "lifetime") {
        read_lifetime(alloc, behind)
    } else if is_same_word(report, "stamps") {
        read_stamps(alloc, behind)
    } else {
        read_seal_or_yearly(alloc, report, behind)
    }
}

// The same of the names that are left.
fn read_seal_or_yearly(
    alloc: Global,
    report: &str,
    behind: &[String],
) -> Result<Option<ReportRequest>, AllocError>
    requires plain { ArePlain (map string_bytes behind.now) }
    requires not_lifetime { report.now ≢ codes "lifetime" }
    requires not_stamps { report.now ≢ codes "stamps" }
    ensures { IfOk result (ReadsReport (report.now ∷ map string_bytes behind.now)) }
{
    if is_same_word(report, "seal") {
        read_seal(alloc, behind)
    } else if is_same_word(report, "seals") {
        read_seals(alloc, behind)
    } else {
        read_yearly(alloc, report, behind)
    }
}

// The report of no year.
fn read_lifetime(alloc: Global, behind: &[String]) -> Result<Option<ReportRequest>, AllocError>
    requires { ArePlain (map string_bytes behind.now) }
    ensures { IfOk result (ReadsReport (codes "lifetime" ∷ map string_bytes behind.now)) }
{
    if is_alone(alloc, "lifetime", behind)? {
        Ok(Some(ReportRequest::Lifetime))
    } else {
        Ok(None)
    }
}

// The report of the stamps.
fn read_stamps(alloc: Global, behind: &[String]) -> Result<Option<ReportRequest>, AllocError>
    requires { ArePlain (map string_bytes behind.now) }
    ensures { IfOk result (ReadsReport (codes "stamps" ∷ map string_bytes behind.now)) }
{
    if is_alone(alloc, "stamps", behind)? {
        Ok(Some(ReportRequest::Stamps))
    } else {
        Ok(None)
    }
}

// The report of the seal.
fn read_seal(alloc: Global, behind: &[String]) -> Result<Option<ReportRequest>, AllocError>
    requires { ArePlain (map string_bytes behind.now) }
    ensures { IfOk result (ReadsReport (codes "seal" ∷ map string_bytes behind.now)) }
{
    if is_alone(alloc, "seal", behind)? {
        Ok(Some(ReportRequest::Seal))
    } else {
        Ok(None)
    }
}

// The report of the seals of all fronts.
fn read_seals(alloc: Global, behind: &[String]) -> Result<Option<ReportRequest>, AllocError>
    requires { ArePlain (map string_bytes behind.now) }
    ensures { IfOk result (ReadsReport (codes "seals" ∷ map string_bytes behind.now)) }
{
    if is_alone(alloc, "seals", behind)? {
        Ok(Some(ReportRequest::Seals))
    } else {
        Ok(None)
    }
}

// A report of a year.
fn read_yearly(
    alloc: Global,
    report: &str,
    behind: &[String],
) -> Result<Option<ReportRequest>, AllocError>
    requires plain { ArePlain (map string_bytes behind.now) }
    requires not_lifetime { report.now ≢ codes "lifetime" }
    requires not_stamps { report.now ≢ codes "stamps" }
    requires not_seal { report.now ≢ codes "seal" }
    requires not_seals { report.now ≢ codes "seals" }
    ensures { IfOk result (ReadsReport (report.now ∷ map string_bytes behind.now)) }
{
    match number_behind(alloc, report, behind)? {
        Some(year) => Ok(report_request(report, year)),
        None => Ok(None),
    }
}

/// The report of a year that is asked for, of the two words behind `report`: its name and the year.
pub fn report_request(report: &str, year: &str) -> Option<ReportRequest>
    ensures { ReadsReport (report.now ∷ year.now ∷ []) result }
{
    let of = report_year(year)?;
    if is_same_word(report, "standing") {
        Some(ReportRequest::Standing(of))
    } else if is_same_word(report, "awards") {
        Some(ReportRequest::Awards(of))
    } else if is_same_word(report, "returns") {
        Some(ReportRequest::Returns(of))
    } else if is_same_word(report, "export") {
        Some(ReportRequest::Export(of))
    } else {
        None
    }
}

// The year that a report is of.
fn report_year(year: &str) -> Option<ReportYear>
    ensures { ReadsYear year.now result }
{
    Some(ReportYear {
        year: Year(number_in(year, 2000, 2099)? as u16),
    })
}

// The command to file a generated year, of the words behind its name.
fn read_generate(alloc: Global, behind: &[String]) -> Result<Option<Command>, AllocError>
    requires { ArePlain (map string_bytes behind.now) }
    ensures { IfOk result (Reads (codes "generate" ∷ map string_bytes behind.now)) }
{
    match generate_words(alloc, behind)? {
        Some(words) => Ok(generate_command(words.seed, words.students)),
        None => Ok(None),
    }
}

fn generate_command(seed: &str, students: &str) -> Option<Command>
    ensures { Reads (codes "generate" ∷ seed.now ∷ students.now ∷ []) result }
{
    Some(Command::Generate(generate_request(seed, students)?))
}

// The generated year that is asked for.
fn generate_request(seed: &str, students: &str) -> Option<GenerateRequest>
    ensures { ReadsGenerate (seed.now ∷ students.now ∷ []) result }
{
    Some(GenerateRequest {
        seed: number_in(seed, 0, 999_999_999_999)?,
        students: number_in(students, 1, 20_000)? as u16,
    })
}

// The command to ask for a quote, of the words behind its name.
fn read_quote(alloc: Global, behind: &[String]) -> Result<Option<Command>, AllocError>
    requires { ArePlain (map string_bytes behind.now) }
    ensures { IfOk result (Reads (codes "quote" ∷ map string_bytes behind.now)) }
{
    match quote_words(alloc, behind)? {
        Some(words) => Ok(quote_command(words.school, words.student, words.year, words.term)),
        None => Ok(None),
    }
}

fn quote_command(school: &str, student: &str, year: &str, term: &str) -> Option<Command>
    ensures { Reads (codes "quote" ∷ school.now ∷ student.now ∷ year.now ∷ term.now ∷ []) result }
{
    Some(Command::Quote(quote_request(school, student, year, term)?))
}

// The payment that is asked about.
fn quote_request(school: &str, student: &str, year: &str, term: &str) -> Option<QuoteRequest>
    ensures { ReadsQuote (school.now ∷ student.now ∷ year.now ∷ term.now ∷ []) result }
{
    Some(QuoteRequest {
        school: School(number_in(school, 0, 999_999)? as u32),
        student: Student(number_in(student, 1, 999_999_999_999)?),
        year: Year(number_in(year, 2000, 2099)? as u16),
        term: number_in(term, 1, 8)? as u8,
    })
}

// The command to file a round of awards, of the words behind its name.
fn read_fund(
    alloc: Global,
    policies: &Policies,
    behind: &[String],
) -> Result<Option<Command>, AllocError>
    requires { ArePlain (map string_bytes behind.now) }
    ensures { IfOk result (ReadsOf (map (λ p. p.name) policies.now.list.items) (codes "fund" ∷ map string_bytes behind.now)) }
{
    match fund_words(alloc, behind)? {
        Some(words) => Ok(fund_command(
            policies,
            words.school,
            words.year,
            words.term,
            words.amount,
            words.policy,
            words.number,
        )),
        None => Ok(None),
    }
}

fn fund_command(
    policies: &Policies,
    school: &str,
    year: &str,
    term: &str,
    amount: &str,
    policy: &str,
    number: &str,
) -> Option<Command>
    ensures { ReadsOf (map (λ p. p.name) policies.now.list.items)
        (codes "fund" ∷ school.now ∷ year.now ∷ term.now ∷ amount.now ∷ policy.now ∷ number.now ∷ []) result }
{
    Some(Command::Fund(fund_request(policies, school, year, term, amount, policy, number)?))
}

// The place of the first policy of a name.
fn place_of(policies: &Policies, name: &str) -> Option<usize>
    ensures { result ≡ position (λ known. bytes_eq known name.now) (map (λ p. p.name) policies.now.list.items) }
{
    policies.list.iter().position(
        |policy|
            ensures { result ≡ bytes_eq policy.now.name name.entry.now }
        { policy.name.as_bytes() == name.as_bytes() },
    )
}

// The award round that is asked for.
fn fund_request(
    policies: &Policies,
    school: &str,
    year: &str,
    term: &str,
    amount: &str,
    policy: &str,
    number: &str,
) -> Option<FundRequest>
    ensures { ReadsFund (map (λ p. p.name) policies.now.list.items)
        (school.now ∷ year.now ∷ term.now ∷ amount.now ∷ policy.now ∷ number.now ∷ []) result }
{
    Some(FundRequest {
        school: School(number_in(school, 0, 999_999)? as u32),
        year: Year(number_in(year, 2000, 2099)? as u16),
        term: number_in(term, 1, 8)? as u8,
        amount: number_in(amount, 1, 99_999_999)? as u32,
        policy: place_of(policies, policy)?,
        number: number_in(number, 1, 999_999_000_000)?,
    })
}
