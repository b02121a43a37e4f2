//! The words of a run.
ghost use Rattle.std.specs.Prelude.{◌≡◌, ◌≤◌, IfSome, map, pos, string_bytes};
ghost use Rattle.aid_types.specs.Whole.{whole_between, whole_of};
ghost use Rattle.audit.specs.Words.{audit_in, audit_of as audit_by_note, command_behind as command_behind_of, command_in, count_by, note_of as note_of_words};

use crate::note::Note;
use aid_seals::Seal;
use aid_types::read_whole;
use office_export::is_seal;

/// What a run is to answer.
#[derive(Clone, Copy)]
pub enum AuditCommand {
    /// Whether a text is the export of a legal history, as an export has at most 20,000 filings, held against a note or not.
    Audit(Option<Note>),
    /// The same of a text of at most 1,000,000 filings.
    Whole(Option<Note>),
    /// Rows about clock-hour programs.
    Clock,
}

// The number of filings that a text spells.
fn count_in(text: &[u8]) -> Option<u64>
    ensures value { result ≡ count_by (whole_between (pos 0) (pos 4294967295) (whole_of text.now)) }
    ensures in_range { IfSome result (λ n. n ≤ 4294967295) }
{
    match read_whole(text, 0, 4_294_967_295) {
        Ok(count) => Some(count.unsigned_abs()),
        Err(_) => None,
    }
}

// The note of a count and of the digits of a seal.
fn note_of(count: &str, digits: &str) -> Option<Note>
    ensures { result ≡ note_of_words count.now digits.now }
{
    if !is_seal(digits.as_bytes()) {
        return None;
    }
    let count = count_in(count.as_bytes())?;
    let mut bytes = [0; 32];
    let Ok(()) = hex::decode_to_slice(digits, &mut bytes) else {
        return None;
    };
    Some(Note {
        count: count as u32,
        seal: Seal { bytes },
    })
}

// The command of an audit, of a whole office or not.
fn audit_of(whole: bool, note: Option<Note>) -> AuditCommand
    ensures { result ≡ audit_by_note whole note }
{
    if whole {
        AuditCommand::Whole(note)
    } else {
        AuditCommand::Audit(note)
    }
}

// The command of an audit by the words behind `audit`, and behind `whole` where it is there: none, or a note.
fn command_behind(whole: bool, words: &[String]) -> Option<AuditCommand>
    ensures { result ≡ command_behind_of whole (map string_bytes words.now) }
{
    match words {
        [] => Some(audit_of(whole, None)),
        [count, digits] => {
            let note = note_of(count.as_str(), digits.as_str())?;
            Some(audit_of(whole, Some(note)))
        }
        _ => None,
    }
}

// The command by the words behind `audit`.
fn audit_by(words: &[String]) -> Option<AuditCommand>
    ensures { result ≡ audit_in (map string_bytes words.now) }
{
    if let [word, behind @ ..] = words {
        if word.as_str() == "whole" {
            return command_behind(true, behind);
        }
    }
    command_behind(false, words)
}

/// The command that the words say, if they are those of one.
pub(crate) fn command_by(words: &[String]) -> Option<AuditCommand>
    ensures { result ≡ command_in (map string_bytes words.now) }
{
    let [word, behind @ ..] = words else {
        return None;
    };
    if word.as_str() == "audit" {
        audit_by(behind)
    } else if word.as_str() == "clock" && behind.is_empty() {
        Some(AuditCommand::Clock)
    } else {
        None
    }
}
