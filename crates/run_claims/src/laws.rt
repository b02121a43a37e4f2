// What the headline's words come to in those of the kept office. Each of these functions does nothing.
ghost use Rattle.std.specs.Prelude.{◌≡◌, ℕ, List, Result};
ghost use Rattle.aid_filings.specs.declared.filing.Filing.{Filing};
ghost use Rattle.aid_filings.specs.declared.reply.Operation.{Operation};
ghost use Rattle.format_filings.specs.Rows.{row_meaning};
ghost use Rattle.format_rows.specs.declared.error.RowError.{RowError};
ghost use Rattle.run_claims.specs.Office.{AnsweredUnder, Recovers};
ghost use Rattle.office_log.specs.Recovers.{Recovers as KeptRecovers};
ghost use Rattle.office_log.specs.Submits.{office_semantics};
ghost use Rattle.log_machine.specs.Texts.{after_row, row_line};
ghost use Rattle.run_rows.specs.Asks.{asked, desk_texts, said_by};
ghost use Rattle.office_history.specs.Answer.{IsLegal};
ghost use Rattle.log_stamps.specs.Entries.{entries};
ghost use Rattle.log_stamps.specs.Rows.{said_under, stamped_texts};
ghost use Rattle.log_stamps.specs.declared.entry.StampedOperation.{StampedOperation};
ghost use Rattle.log_stamps.specs.declared.entry.StampedEntry.{StampedEntry};
ghost use Rattle.log_stamps.specs.declared.entry.StampedError.{StampedError};
ghost use Rattle.aid_stamps.specs.declared.stamp.Stamp.{Stamp};

/// A file recovers a history in few words exactly where a kept office recovers it.
pub fn recovers_as_kept()
    ensures kept { (file : List ℕ) (history : List (StampedEntry Filing)) → Recovers file history → KeptRecovers file history }
    ensures plain { (file : List ℕ) (history : List (StampedEntry Filing)) → KeptRecovers file history → Recovers file history }
{}

/// A file recovers one history at most.
pub fn recovers_once()
    ensures { (file : List ℕ) (one other : List (StampedEntry Filing)) → Recovers file one → Recovers file other → one ≡ other }
{}

/// The line that answers a row on a legal history, and the history after it, are as the headline's words say.
pub fn row_is_answered()
    ensures { (stamp : Stamp) (past : List (StampedEntry Filing)) (number : ℕ) (row : List (List ℕ)) (said : Result (StampedOperation Operation) (StampedError RowError)) → IsLegal (entries past)
        → said_under said_by said ≡ (asked (row_meaning number row), stamp)
        → AnsweredUnder stamp past number row (row_line office_semantics (stamped_texts desk_texts) past number said) (after_row office_semantics past said) }
{}
