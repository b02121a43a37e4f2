//! Which call of the program a row of words needs.
ghost use Rattle.std.specs.Prelude.{◌≡◌, ◌≢◌, ◌↔◌, ◌⊎◌, ◌∷◌, [], ℕ, List, codes, false, map, string_bytes};
ghost use Rattle.aid_stamps.specs.declared.stamp.Stamp.{Stamp as StampData};
ghost use Rattle.run_words.specs.Stamped.{AreStampedDesks, AreStampedServe, IsAmend, IsStampedRow};
ghost use Rattle.run_words.specs.Words.{AreDesks, AreServe, IsRow, IsUpgrade, ReadsServe, words_of};
ghost use Rattle.run_words.specs.declared.command.Command.{Command as CommandData};
ghost use Rattle.run_words.specs.declared.command.Command.TheVariants.{CheckBook, CheckRows};

use crate::amend::amend_request;
use crate::at::behind_at;
use crate::command::MainRow;
use crate::file_row::upgrade_file;
use crate::hyphen::are_plain;
use crate::number::number_in;
use aid_stamps::Stamp;

/// At most so many desks file at once.
pub const MOST_DESKS: usize = 16;

// The row of a first word and the words behind it, where they are no server's.
fn desks_row(stamp: &Stamp, first: &str, files: &[String]) -> MainRow
    ensures desks { (count : ℕ) (s : StampData) → (result ≡ MainRow.Desks count s) ↔ ((stamp.now ≡ s) × AreDesks (first.now ∷ map string_bytes files.now) count) }
    ensures other { (port workers sessions : ℕ) (s : StampData) → result ≢ MainRow.Serve port workers sessions s }
    ensures no_upgrade { result ≢ MainRow.Upgrade }
    ensures no_amend { result ≢ MainRow.Amend }
    ensures no_changes { result ≢ MainRow.Changes }
{
    if first == "desks" && !files.is_empty() && files.len() <= MOST_DESKS && are_plain(files) {
        MainRow::Desks {
            files: files.len() as u32,
            stamp: *stamp,
        }
    } else {
        MainRow::Run
    }
}

// The row of the numbers of a server.
fn numbers_row(stamp: &Stamp, port: &str, workers: &str, sessions: &str) -> Option<MainRow>
    ensures { ReadsServe stamp.now (codes "serve" ∷ port.now ∷ workers.now ∷ sessions.now ∷ []) result }
{
    Some(MainRow::Serve {
        port: number_in(port, 1, 65_535)? as u16,
        workers: number_in(workers, 1, 16)? as u8,
        sessions: number_in(sessions, 1, 1_000_000)? as u32,
        stamp: *stamp,
    })
}

// The row of four words, where they are a server's.
fn row_of_four(
    stamp: &Stamp,
    first: &str,
    port: &str,
    workers: &str,
    sessions: &str,
) -> Option<MainRow>
    ensures { ReadsServe stamp.now (first.now ∷ port.now ∷ workers.now ∷ sessions.now ∷ []) result }
{
    if first == "serve" {
        numbers_row(stamp, port, workers, sessions)
    } else {
        None
    }
}

// The row of the words behind the stamp, where they are a server's.
fn serve_row(stamp: &Stamp, words: &[String]) -> Option<MainRow>
    ensures { ReadsServe stamp.now (map string_bytes words.now) result }
{
    match words {
        [first, port, workers, sessions] => row_of_four(
            stamp,
            first.as_str(),
            port.as_str(),
            workers.as_str(),
            sessions.as_str(),
        ),
        _ => None,
    }
}

// The row of the words behind the stamp.
fn row_behind(stamp: &Stamp, words: &[String]) -> MainRow
    ensures desks { (files : ℕ) (s : StampData) → (result ≡ MainRow.Desks files s) ↔ ((stamp.now ≡ s) × AreDesks (map string_bytes words.now) files) }
    ensures serve { (port workers sessions : ℕ) (s : StampData) → (result ≡ MainRow.Serve port workers sessions s)
        ↔ ((stamp.now ≡ s) × AreServe (map string_bytes words.now) port workers sessions) }
    ensures no_upgrade { result ≢ MainRow.Upgrade }
    ensures no_amend { result ≢ MainRow.Amend }
    ensures no_changes { result ≢ MainRow.Changes }
{
    if let Some(row) = serve_row(stamp, words) {
        return row;
    }
    match words.split_first() {
        Some((first, files)) => desks_row(stamp, first.as_str(), files),
        None => MainRow::Run,
    }
}

// The row of the words, which may stand behind a stamp.
fn stamped_row(words: &[String]) -> MainRow
    ensures desks { (files : ℕ) (stamp : StampData) → (result ≡ MainRow.Desks files stamp) ↔ AreStampedDesks (map string_bytes words.now) files stamp }
    ensures serve { (port workers sessions : ℕ) (stamp : StampData) → (result ≡ MainRow.Serve port workers sessions stamp)
        ↔ AreStampedServe (map string_bytes words.now) port workers sessions stamp }
    ensures no_upgrade { result ≢ MainRow.Upgrade }
    ensures no_amend { result ≢ MainRow.Amend }
    ensures no_changes { result ≢ MainRow.Changes }
{
    match behind_at(words) {
        Some((stamp, rest)) => row_behind(&stamp, rest),
        None => MainRow::Run,
    }
}

/// The call that the words need. `upgrade FILE` has nothing in front, and `amend FILE NUMBER` has
/// `at DAY CLERK` in front, with a number of 1 to 999,000,000,000; the file of either doesn't begin with a
/// hyphen. Behind `at DAY CLERK` may stand `desks FILE..` with 1 to 16 files, of which none begins with a
/// hyphen, and `serve PORT WORKERS SESSIONS` with a port from 1, 1 to 16 workers and 1 to 1,000,000 sessions.
/// All else is a run. It takes no memory.
pub fn row_of(words: &[String]) -> MainRow
    ensures desks { (files : ℕ) (stamp : StampData) → (result ≡ MainRow.Desks files stamp) ↔ AreStampedDesks (map string_bytes words.now) files stamp }
    ensures serve { (port workers sessions : ℕ) (stamp : StampData) → (result ≡ MainRow.Serve port workers sessions stamp)
        ↔ AreStampedServe (map string_bytes words.now) port workers sessions stamp }
    ensures upgrade { (result ≡ MainRow.Upgrade) ↔ ((file : List ℕ) × IsUpgrade (map string_bytes words.now) file) }
    ensures amend { (result ≡ MainRow.Amend) ↔ ((stamp : StampData) × (file : List ℕ) × (number : ℕ)
        × IsAmend (map string_bytes words.now) stamp file number) }
    ensures no_changes { result ≢ MainRow.Changes }
{
    match upgrade_file(words) {
        Some(_) => MainRow::Upgrade,
        None => match amend_request(words) {
            Some(_) => MainRow::Amend,
            None => stamped_row(words),
        },
    }
}

/// Whether the words may be those of a command that works on the journal, by the first of them behind the stamp: of the commands,
/// only the two checks don't.
pub fn needs_journal(words: &[String]) -> bool
    ensures none { result ≡ false → (names : List (List ℕ)) (stamp : StampData) (command : CommandData)
        → IsStampedRow names (map string_bytes words.now) stamp command → (command ≡ CheckRows) ⊎ (command ≡ CheckBook) }
{
    match behind_at(words) {
        Some((_, rest)) => is_journal_row(rest),
        None => false,
    }
}

// Whether the words may be those of a command that works on the journal.
fn is_journal_row(words: &[String]) -> bool
    ensures none { result ≡ false → (names : List (List ℕ)) (command : CommandData) → IsRow names (map string_bytes words.now) command
        → (command ≡ CheckRows) ⊎ (command ≡ CheckBook) }
{
    match words.split_first() {
        Some((name, _)) => works_on_journal(name.as_str()),
        None => false,
    }
}

// Whether a command of this name works on the journal.
fn works_on_journal(name: &str) -> bool
    ensures { result ≡ false → (names behind : List (List ℕ)) (command : CommandData) → name.now ∷ behind ≡ words_of names command
        → (command ≡ CheckRows) ⊎ (command ≡ CheckBook) }
{
    name == "found"
        || name == "file"
        || name == "book"
        || name == "quote"
        || name == "report"
        || name == "fund"
        || name == "generate"
}
