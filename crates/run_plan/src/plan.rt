//! What the words say.
ghost use Rattle.std.specs.Prelude.{◌≡◌, ◌≢◌, ◌↔◌, ◌⊎◌, ◌∷◌, [], ℕ, List, None, IfSome, IsTrue, bytes_eq, codes, map, string_bytes};
ghost use Rattle.aid_stamps.specs.declared.stamp.Stamp.{Stamp as StampData};
ghost use Rattle.run_words.specs.Stamped.{AreStampedServe, IsAmend};
ghost use Rattle.run_words.specs.Words.{IsChanges, IsUpgrade};
ghost use Rattle.run_plan.specs.Plans.{AreDesksOf, IsFounding, IsPlan, IsPlanFromPath, IsUnheld, Suits, asks_report as asks_report_in, from_path, is_audit as is_audit_in, is_reading, program_in as program_of_words, program_of as program_of_word};

use aid_stamps::Stamp;
use run_words::{MOST_DESKS, MainRow, changes_file, is_found, needs_journal, row_of};

/// Whose words they are that work on a journal.
#[derive(Clone, Copy)]
pub enum Program {
    /// The aid office's: no word of a desk stands in front.
    Office,
    /// `loans`: the Direct Loan desk's.
    Loans,
    /// `work`: the work-study desk's.
    Work,
    /// `sheet`: those of a sheet of the aid office.
    Sheet,
}

/// How the journal's file is opened.
#[derive(Clone, Copy)]
pub enum Opening {
    /// For reading alone. Where there is none, none is made.
    Read,
    /// To read and write, and made where there is none. Nobody holds it, since nothing is done with it.
    Open,
    /// The same, and held for this run alone.
    Hold,
    /// The same, and its folder is synced where no list stands in the file yet.
    Found,
}

/// What the words say of a run on a journal.
#[derive(Drop)]
pub struct JournalPlan {
    pub program: Program,
    /// The path of the journal's file.
    pub path: String,
    /// The words behind the path.
    pub words: Vec<String>,
    /// The call that they need.
    pub row: MainRow,
    pub opening: Opening,
}

/// What the words say.
#[derive(Drop)]
pub enum Plan {
    /// Those of the auditor, which has no journal: all of them.
    Audit(Vec<String>),
    /// They end before the path of a journal.
    NoJournal(Program),
    /// A run on a journal.
    Journal(JournalPlan),
}

// Whether a word is this one.
fn is_word(word: &str, name: &str) -> bool
    ensures { result ≡ bytes_eq word.now name.now }
{
    word == name
}

// Whose words a first word begins.
fn program_named(word: &str) -> Program
    ensures { result ≡ program_of_word word.now }
{
    if is_word(word, "loans") {
        Program::Loans
    } else if is_word(word, "work") {
        Program::Work
    } else if is_word(word, "sheet") {
        Program::Sheet
    } else {
        Program::Office
    }
}

// Whose the words are.
fn program_in(words: &[String]) -> Program
    ensures { result ≡ program_of_words (map string_bytes words.now) }
{
    match words.split_first() {
        Some((word, _)) => program_named(word.as_str()),
        None => Program::Office,
    }
}

// Whether the words are the auditor's.
fn is_audit(words: &[String]) -> bool
    ensures { result ≡ is_audit_in (map string_bytes words.now) }
{
    match words.split_first() {
        Some((word, _)) => is_word(word.as_str(), "audit") || is_word(word.as_str(), "clock"),
        None => false,
    }
}

// Takes the first word off.
fn take_first(words: &mut Vec<String>) -> Option<String>
    ensures some { IfSome result (λ word. map string_bytes words.old.items ≡ string_bytes word ∷ map string_bytes words.new.items) }
    ensures none { result ≡ None → (map string_bytes words.old.items ≡ []) × (map string_bytes words.new.items ≡ []) }
{
    if words.is_empty() {
        None
    } else {
        Some(words.remove(0))
    }
}

// The words from the journal's path on.
fn words_from_path(program: Program, words: Vec<String>) -> Vec<String>
    ensures { map string_bytes result.items ≡ from_path program (map string_bytes words.items) }
{
    let mut rest = words;
    match program {
        Program::Office => {}
        Program::Loans | Program::Work | Program::Sheet => {
            let _desk = take_first(&mut rest);
        }
    }
    rest
}

// The call that the loan desk's words need: `desks FILE..` with 1 to 16 files, or a run.
fn loan_row(words: &[String]) -> MainRow
    ensures desks { (files : ℕ) (stamp : StampData) → (result ≡ MainRow.Desks files stamp) ↔ AreDesksOf Program.Loans (map string_bytes words.now) files stamp }
    ensures other { (port workers sessions : ℕ) (stamp : StampData) → result ≢ MainRow.Serve port workers sessions stamp }
    ensures no_upgrade { result ≢ MainRow.Upgrade }
    ensures no_amend { result ≢ MainRow.Amend }
    ensures no_changes { result ≢ MainRow.Changes }
{
    match words.split_first() {
        Some((first, files)) => loan_row_of(first.as_str(), files),
        None => MainRow::Run,
    }
}

// The same of a first word and the words behind it.
fn loan_row_of(first: &str, files: &[String]) -> MainRow
    ensures desks { (count : ℕ) (stamp : StampData) → (result ≡ MainRow.Desks count stamp) ↔ AreDesksOf Program.Loans (first.now ∷ map string_bytes files.now) count stamp }
    ensures other { (port workers sessions : ℕ) (stamp : StampData) → result ≢ MainRow.Serve port workers sessions stamp }
    ensures no_upgrade { result ≢ MainRow.Upgrade }
    ensures no_amend { result ≢ MainRow.Amend }
    ensures no_changes { result ≢ MainRow.Changes }
{
    if is_word(first, "desks") && !files.is_empty() && files.len() <= MOST_DESKS {
        MainRow::Desks {
            files: files.len() as u32,
            stamp: Stamp::plain(),
        }
    } else {
        MainRow::Run
    }
}

// The call that the words of a sheet need.
fn sheet_row(words: &[String]) -> MainRow
    ensures changes { (result ≡ MainRow.Changes) ↔ ((file : List ℕ) × IsChanges (map string_bytes words.now) file) }
    ensures no_desks { (files : ℕ) (stamp : StampData) → result ≢ MainRow.Desks files stamp }
    ensures no_serve { (port workers sessions : ℕ) (stamp : StampData) → result ≢ MainRow.Serve port workers sessions stamp }
    ensures no_upgrade { result ≢ MainRow.Upgrade }
    ensures no_amend { result ≢ MainRow.Amend }
{
    match changes_file(words) {
        Some(_) => MainRow::Changes,
        None => MainRow::Run,
    }
}

// The call that the words behind the path need.
fn row_for(program: Program, words: &[String]) -> MainRow
    ensures desks { (files : ℕ) (stamp : StampData) → (result ≡ MainRow.Desks files stamp) ↔ AreDesksOf program (map string_bytes words.now) files stamp }
    ensures serve { (port workers sessions : ℕ) (stamp : StampData) → (result ≡ MainRow.Serve port workers sessions stamp)
        ↔ ((program ≡ Program.Office) × AreStampedServe (map string_bytes words.now) port workers sessions stamp) }
    ensures upgrade { (result ≡ MainRow.Upgrade) ↔ ((program ≡ Program.Office) × ((file : List ℕ) × IsUpgrade (map string_bytes words.now) file)) }
    ensures amend { (result ≡ MainRow.Amend) ↔ ((program ≡ Program.Office) × (stamp : StampData) × (file : List ℕ) × (number : ℕ)
        × IsAmend (map string_bytes words.now) stamp file number) }
    ensures changes { (result ≡ MainRow.Changes) ↔ ((program ≡ Program.Sheet) × ((file : List ℕ) × IsChanges (map string_bytes words.now) file)) }
{
    match program {
        Program::Office => row_of(words),
        Program::Loans => loan_row(words),
        Program::Work => MainRow::Run,
        Program::Sheet => sheet_row(words),
    }
}

// Whether the words are `found` alone.
fn is_found_alone(words: &[String]) -> bool
    ensures { IsTrue result ↔ (map string_bytes words.now ≡ codes "found" ∷ []) }
{
    match words {
        [word] => word.as_str() == "found",
        _ => false,
    }
}

// How the file of an aid office is opened for these words, which need this call.
fn office_opening(row: &MainRow, words: &[String]) -> Opening
    requires upgrade { (row.now ≡ MainRow.Upgrade) ↔ ((file : List ℕ) × IsUpgrade (map string_bytes words.now) file) }
    requires amend { (row.now ≡ MainRow.Amend) ↔ ((stamp : StampData) × (file : List ℕ) × (number : ℕ)
        × IsAmend (map string_bytes words.now) stamp file number) }
    ensures founds { (result ≡ Opening.Found) ↔ IsFounding Program.Office (map string_bytes words.now) }
    ensures written { result ≢ Opening.Read }
    ensures unheld { result ≡ Opening.Open → IsUnheld row.now (map string_bytes words.now) }
{
    if is_found(words) {
        return Opening::Found;
    }
    match *row {
        MainRow::Upgrade | MainRow::Amend => Opening::Found,
        MainRow::Desks { .. } | MainRow::Serve { .. } | MainRow::Changes => Opening::Hold,
        MainRow::Run => run_opening(words),
    }
}

// How the file is opened for a run that founds nothing.
fn run_opening(words: &[String]) -> Opening
    ensures kept { (result ≡ Opening.Hold) ⊎ (result ≡ Opening.Open) }
    ensures unheld { result ≡ Opening.Open → IsUnheld MainRow.Run (map string_bytes words.now) }
{
    if needs_journal(words) {
        Opening::Hold
    } else {
        Opening::Open
    }
}

// Whether the words ask for a text of a desk's list.
fn asks_report(words: &[String]) -> bool
    ensures { result ≡ asks_report_in (map string_bytes words.now) }
{
    match words.split_first() {
        Some((word, _)) => is_word(word.as_str(), "report") || is_word(word.as_str(), "upto"),
        None => false,
    }
}

// How the file of a desk's list is opened.
fn list_opening(words: &[String]) -> Opening
    ensures founds { (result ≡ Opening.Found) ↔ (map string_bytes words.now ≡ codes "found" ∷ []) }
    ensures read { (result ≡ Opening.Read) ↔ IsTrue (asks_report_in (map string_bytes words.now)) }
    ensures kept { result ≢ Opening.Open }
{
    if is_found_alone(words) {
        Opening::Found
    } else if asks_report(words) {
        Opening::Read
    } else {
        Opening::Hold
    }
}

// How the journal's file is opened.
fn opening_for(program: Program, row: &MainRow, words: &[String]) -> Opening
    requires upgrade { (row.now ≡ MainRow.Upgrade) ↔ ((program ≡ Program.Office) × ((file : List ℕ) × IsUpgrade (map string_bytes words.now) file)) }
    requires amend { (row.now ≡ MainRow.Amend) ↔ ((program ≡ Program.Office) × (stamp : StampData) × (file : List ℕ) × (number : ℕ)
        × IsAmend (map string_bytes words.now) stamp file number) }
    ensures founds { (result ≡ Opening.Found) ↔ IsFounding program (map string_bytes words.now) }
    ensures read { (result ≡ Opening.Read) ↔ IsTrue (is_reading program (map string_bytes words.now)) }
    ensures unheld { result ≡ Opening.Open → (program ≡ Program.Office) × IsUnheld row.now (map string_bytes words.now) }
{
    match program {
        Program::Office => office_opening(row, words),
        Program::Loans | Program::Work => list_opening(words),
        Program::Sheet => Opening::Read,
    }
}

// The plan of a run on the journal of a path.
fn journal_plan(
    program: Program,
    path: String,
    words: Vec<String>,
    row: MainRow,
    opening: Opening,
) -> Plan
    requires { Suits program (map string_bytes words.items) row opening }
    ensures { IsPlanFromPath program (string_bytes path ∷ map string_bytes words.items) result }
{
    Plan::Journal(JournalPlan {
        program,
        path,
        words,
        row,
        opening,
    })
}

// The plan of words that aren't the auditor's, from the journal's path on.
fn plan_from_path(program: Program, words: Vec<String>) -> Plan
    ensures { IsPlanFromPath program (map string_bytes words.items) result }
{
    let mut rest = words;
    let Some(path) = take_first(&mut rest) else {
        return Plan::NoJournal(program);
    };
    let row = row_for(program, &rest);
    let opening = opening_for(program, &row, &rest);
    journal_plan(program, path, rest, row, opening)
}

/// What the words say: `audit` or `clock` in front is the auditor's; `loans`, `work` or `sheet` in front is that desk's word, and the
/// next one is its journal's path; with any other word in front it is itself the path of an aid office's journal. The journal's file is
/// held for this run wherever the run may write it, and only read for a sheet or a text of a desk's list. It takes no memory.
pub fn plan_of(words: Vec<String>) -> Plan
    ensures { IsPlan (map string_bytes words.items) result }
{
    if is_audit(&words) {
        return Plan::Audit(words);
    }
    let program = program_in(&words);
    plan_from_path(program, words_from_path(program, words))
}
