//! Laws of sheets, each as the contract of a function that computes nothing. A slice has the oldest first.
ghost use Rattle.std.specs.Prelude.{◌≡◌, ℕ, List, Some, length, map, reverse};
ghost use Rattle.aid_filings.specs.declared.filing.Filing.{Filing as FilingData};
ghost use Rattle.aid_seals.specs.Seals.{seal, sealed_line};
ghost use Rattle.aid_types.specs.Programs.{rank};
ghost use Rattle.aid_types.specs.declared.number.Program.{Program};
ghost use Rattle.log_stamps.specs.Entries.{entries};
ghost use Rattle.log_stamps.specs.declared.entry.StampedEntry.{StampedEntry as StampedData};
ghost use Rattle.office_history.specs.Answer.{IsLegal};
ghost use Rattle.office_history.specs.Net.{net};
ghost use Rattle.office_log.specs.Recovers.{Recovers};
ghost use Rattle.office_log.specs.Scheme.{office_header, office_scheme};
ghost use Rattle.office_sheets.specs.PaymentLaws.{last_total};
ghost use Rattle.office_sheets.specs.PaymentLines.{payments_text};
ghost use Rattle.office_sheets.specs.Payments.{of_program};
ghost use Rattle.run_sheets.specs.SealLaws.{IsOneOrCollision};
ghost use Rattle.run_sheets.specs.Texts.{first_of, sheet_of, sheet_upto};
ghost use Rattle.run_sheets.specs.Totals.{AddUp, rows_of};
ghost use Rattle.run_sheets.specs.declared.request.SheetRequest.TheVariants.{Payments, Report};
ghost use Rattle.run_sheets.specs.declared.request.Position.{Position as PositionData};
ghost use Rattle.run_words.specs.declared.command.ReportRequest.TheVariants.{Seal};
ghost use Rattle.run_sheets.specs.declared.request.TermRequest.{TermRequest};

use aid_filings::Filing;
use log_stamps::StampedEntry;

/// The payments of a term add up: the text has a line of each row, and each row's total is the one of the row of its program before
/// it, 0 where there is none, and what the row paid, or less what it took back. The last total of a program is what all students of
/// the term have of it, by the office's own net; and 0 where no row is of the program.
pub fn payments_add_up(list: &[StampedEntry<Filing>])
    requires { IsLegal (entries (reverse list.now)) }
    ensures text { (of : TermRequest) → sheet_of (Payments of) (reverse list.now) ≡ payments_text (rows_of of (reverse list.now)) }
    ensures rows { (of : TermRequest) → AddUp (rows_of of (reverse list.now)) }
    ensures last { (of : TermRequest) → (program : Program)
        → last_total program 0 (rows_of of (reverse list.now)) ≡ net (entries (reverse list.now)) (of_program of.school of.year of.term (rank program)) }
{
    let _ = list;
}

/// The seal of a list is the chain of SHA-256 over the name in the journal's header and the records of the list, each of which is a
/// filing's bytes behind those of its stamp, as the journal has them.
#[tactic(auto, using(crate::proofs::Noted::seal_of_records))]
pub fn seal_of_the_journal()
    ensures { (past : List (StampedData FilingData)) → sheet_of (Report Seal) past ≡ sealed_line (length past) (seal office_header.name (map office_scheme.spelling past)) }
{}

/// Two journals of which the lines of the seals read alike have one list, filing by filing and stamp by stamp, or the two messages
/// that are found in them are a collision of SHA-256. Nothing is assumed of SHA-256.
pub fn one_seal_one_list()
    ensures { (file other_file : List ℕ) (past other : List (StampedData FilingData)) → Recovers file past → Recovers other_file other
        → sheet_of (Report Seal) past ≡ sheet_of (Report Seal) other → IsOneOrCollision past other }
{}

/// A journal whose line up to a position is one that was noted of a list begins with this list, or the messages that are found are a
/// collision: nothing of it was rewritten, left out or put in.
pub fn a_noted_front_stands()
    ensures { (file noted_file : List ℕ) (past noted : List (StampedData FilingData)) (position : PositionData) → Recovers file past → Recovers noted_file noted
        → sheet_upto (Some position) (Report Seal) past ≡ sheet_of (Report Seal) noted → IsOneOrCollision (first_of position.number past) noted }
{}
