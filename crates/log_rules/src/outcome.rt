// How an outcome is written.
ghost use Rattle.std.specs.Prelude.{◌≡◌, ◌+◌, ◌≤◌, ◌++◌, ℕ, List};
ghost use Rattle.arrayvec.specs.ArrayString.{array_string_len};

use crate::OfficeRules;
use arrayvec::ArrayString;

/// OfficeRules with the texts of what filings are admitted with.
pub trait OutcomeText: OfficeRules {
    /// The text of an outcome.
    ghost outcome_text: { Self.Outcome → List ℕ };

    /// Appends the text of an outcome to a line, in at most 60 bytes.
    fn push_outcome(outcome: &Self::Outcome, line: &mut ArrayString<160>)
        requires room { array_string_len line.old + 60 ≤ 160 }
        ensures bytes { line.new.bytes ≡ line.old.bytes ++ outcome_text outcome.now }
        ensures len { array_string_len line.new ≤ array_string_len line.old + 60 };
}
