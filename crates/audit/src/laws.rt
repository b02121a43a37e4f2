//! Laws of audits, each as the contract of a function that computes nothing.
ghost use Rattle.std.specs.Prelude.{◌≡◌, ◌≤◌, ℕ, true, List, Option, Some, length};
ghost use Rattle.aid_filings.specs.declared.filing.Filing.{Filing};
ghost use Rattle.aid_stamps.specs.declared.stamp.Stamp.{Stamp};
ghost use Rattle.aid_seals.specs.declared.seal.Seal.{Seal};
ghost use Rattle.office_history.specs.Answer.{IsLegal};
ghost use Rattle.office_history.specs.Within.{IsWithinEveryLimit};
ghost use Rattle.office_export.specs.Applicants.{applicants};
ghost use Rattle.office_export.specs.Exports.{export_text, lines_of};
ghost use Rattle.office_export.specs.Seals.{office_seal};
ghost use Rattle.audit.specs.Findings.{AreExported, AreGood, Asked, Finds, FindsBy};
ghost use Rattle.audit.specs.Laws.{AreOnFile, AreSameOrCollision, front_of};
ghost use Rattle.audit.specs.declared.finding.Finding.{Finding as Found};
ghost use Rattle.audit.specs.declared.finding.Finding.TheVariants.{Yes};
ghost use Rattle.audit.specs.declared.note.Note.{Note};

/// A text has one finding, held against a note or not.
#[tactic(auto, using(crate::proofs::Held::one_held))]
pub fn one()
    ensures { (most : ℕ) (lines : List (List ℕ)) (note : Option Note) (x y : Found) → FindsBy most lines note x → FindsBy most lines note y → x ≡ y }
{}

/// The filings of good lines, as of a text that is found to be an export, are within every limit of the law.
#[tactic(auto, using(office_history::proofs::LegalWithin::legal_within))]
pub fn within()
    ensures { (most : ℕ) (lines : List (List ℕ)) (past : List Filing) (stamps : List Stamp) (asked : List Asked) → AreGood most lines past stamps asked true → IsWithinEveryLimit past }
{}

/// The export of an office is found to be one by an audit that takes as many filings, for any year of awards. Neither that of 20,000
/// filings nor that of 1,000,000 is longer than an input may be.
#[tactic(auto, using(crate::proofs::Exports::export_is_found, crate::proofs::Lengths::export_fits, crate::proofs::Lengths::whole_fits))]
pub fn export_is_yes()
    ensures short { (past : List Filing) (stamps : List Stamp) (year : ℕ) → IsLegal past → AreOnFile past stamps → length past ≤ 20000 → 2000 ≤ year → year ≤ 2099
        → length (export_text past stamps year) ≤ 16777216 }
    ensures whole_short { (past : List Filing) (stamps : List Stamp) (year : ℕ) → IsLegal past → AreOnFile past stamps → length past ≤ 1000000 → 2000 ≤ year → year ≤ 2099
        → length (export_text past stamps year) ≤ 1073741824 }
    ensures found { (most : ℕ) (past : List Filing) (stamps : List Stamp) (year : ℕ) → IsLegal past → AreOnFile past stamps → length past ≤ most → 2000 ≤ year → year ≤ 2099
        → Finds most (lines_of (export_text past stamps year)) (Yes (length past) (length (applicants past year)) (record { bytes = office_seal past stamps })) }
{}

/// Exports with one seal have the same filings under the same stamps, or the two messages that `clash` finds are a collision of
/// SHA-256.
#[tactic(auto, using(crate::proofs::SealedLists::one_seal))]
pub fn one_seal_one_list()
    ensures { (most : ℕ) (lines : List (List ℕ)) (past : List Filing) (stamps : List Stamp) (also : ℕ) (other_lines : List (List ℕ)) (other : List Filing) (others : List Stamp)
        → AreExported most lines past stamps → AreExported also other_lines other others → office_seal past stamps ≡ office_seal other others
        → AreSameOrCollision past stamps other others }
{}

/// Where a text is found to be an export that stands against a note, its first filings, as many as were noted, are those of which the
/// seal was noted, under the same stamps, or there is a collision of SHA-256.
#[tactic(auto, using(crate::proofs::SealedLists::noted_front))]
pub fn a_noted_front_stands()
    ensures { (most : ℕ) (lines : List (List ℕ)) (note : Note) (filings standings : ℕ) (seal : Seal) (noted : List Filing) (noted_stamps : List Stamp)
        → FindsBy most lines (Some note) (Yes filings standings seal) → AreOnFile noted noted_stamps → note.seal.bytes ≡ office_seal noted noted_stamps
        → (past : List Filing) × (stamps : List Stamp) × AreExported most lines past stamps
        × AreSameOrCollision (front_of note.count past) (front_of note.count stamps) noted noted_stamps }
{}
