//! The command of a row of words behind a stamp.
ghost use Rattle.std.specs.Prelude.{◌≡◌, ◌↔◌, ◌∷◌, [], IfOk, IfSome, IsTrue, None, Some, codes, map, string_bytes};
ghost use Rattle.aid_stamps.specs.Stamps.{plain_stamp};
ghost use Rattle.aid_stamps.specs.declared.stamp.Stamp.{Stamp as StampData};
ghost use Rattle.run_words.specs.Stamped.{IsStamped, IsStampedRow};
ghost use Rattle.run_words.specs.Words.{IsRow};
ghost use Rattle.run_words.specs.declared.command.Command.{Command as CommandData};

use crate::at::behind_at;
use crate::command::StampedCommand;
use crate::words::command_in;
use law_funds::Policies;
use std::alloc::{AllocError, Global};

/// The stamp of the words and the command whose row stands behind it, where these policies are known; `None` where they are no row
/// of the program's. An `Err` is want of memory.
pub fn command_of(
    alloc: Global,
    words: &[String],
    policies: &Policies,
) -> Result<Option<StampedCommand>, AllocError>
    ensures words { IfOk result (λ r. IfSome r (λ c. IsStampedRow (map (λ p. p.name) policies.now.list.items) (map string_bytes words.now) c.stamp c.command)) }
    ensures none { IfOk result (λ r. r ≡ None → (stamp : StampData) (c : CommandData)
        → ¬ (IsStampedRow (map (λ p. p.name) policies.now.list.items) (map string_bytes words.now) stamp c)) }
    ensures only { (stamp : StampData) (c : CommandData) → IsStampedRow (map (λ p. p.name) policies.now.list.items) (map string_bytes words.now) stamp c
        → IfOk result (λ r. r ≡ Some (record { stamp = stamp; command = c })) }
    // No row of a command begins with `at`.
    ensures plain { (c : CommandData) → IsRow (map (λ p. p.name) policies.now.list.items) (map string_bytes words.now) c
        → IfOk result (λ r. r ≡ Some (record { stamp = plain_stamp; command = c })) }
{
    let Some((stamp, rest)) = behind_at(words) else {
        return Ok(None);
    };
    match command_in(alloc, rest, policies)? {
        Some(command) => Ok(Some(StampedCommand { stamp, command })),
        None => Ok(None),
    }
}

/// Whether the words behind their stamp are `found` alone: those of a founding.
pub fn is_found(words: &[String]) -> bool
    ensures { IsTrue result ↔ ((stamp : StampData) × IsStamped (map string_bytes words.now) stamp (codes "found" ∷ [])) }
{
    match behind_at(words) {
        Some((_, rest)) => is_found_alone(rest),
        None => false,
    }
}

// Whether the words are `found` alone.
fn is_found_alone(words: &[String]) -> bool
    ensures { IsTrue result ↔ (map string_bytes words.now ≡ codes "found" ∷ []) }
{
    match words {
        [word] => word.as_str() == "found",
        _ => false,
    }
}
