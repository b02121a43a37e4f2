//! Laws of corrected lists, each as the contract of a function that computes nothing. A slice of entries has the oldest first.
ghost use Rattle.std.specs.Prelude.{◌≡◌, ◌↔◌, ◌∷◌, [], ℕ, List, None, reverse};
ghost use Rattle.std.specs.List.{flat_map};
ghost use Rattle.aid_filings.specs.declared.filing.Filing.{Filing as AnyFiling};
ghost use Rattle.aid_stamps.specs.declared.stamp.Stamp.{Stamp};
ghost use Rattle.log_stamps.specs.Entries.{entries};
ghost use Rattle.office_amends.specs.Amended.{amended, before, corrected, instead, named_at};
ghost use Rattle.office_amends.specs.Gathered.{Gathers};
ghost use Rattle.office_amends.specs.Stood.{stood};
ghost use Rattle.office_history.specs.Answer.{IsLegal};

use crate::correction::Correction;
use aid_filings::Filing;
use log_stamps::StampedEntry;

/// A list stands whole exactly where it is legal.
pub fn whole_where_legal(list: &[StampedEntry<Filing>])
    ensures { IsLegal (entries (reverse list.now)) ↔ (stood (reverse list.now) ≡ reverse list.now) }
{
    let _ = list;
}

/// An entry that no correction names stays, under its own stamp.
pub fn others_stay(corrections: &[Correction], entry: &StampedEntry<Filing>)
    ensures { (stamp : Stamp) → named_at corrections.now entry.now.entry.key ≡ None → instead stamp corrections.now entry.now ≡ entry.now }
{
    let _ = corrections;
    let _ = entry;
}

/// Each number stays: what stands in the place of an entry has its key, whatever corrections the rows of a text come to.
pub fn keys_stay(corrections: &[Correction], entry: &StampedEntry<Filing>)
    ensures { (past : List AnyFiling) (number : ℕ) (rows : List (List (List ℕ))) (lines : List (List ℕ)) (stamp : Stamp)
        → Gathers past number rows corrections.now lines → (instead stamp corrections.now entry.now).entry.key ≡ entry.now.entry.key }
{
    let _ = corrections;
    let _ = entry;
}

/// Each entry has its place: in the order of the old list stands what is in its place, and behind that, as one reads from the newest on,
/// what is put in front of it.
pub fn places_stay(corrections: &[Correction], list: &[StampedEntry<Filing>])
    ensures { (stamp : Stamp) → corrected stamp corrections.now (reverse list.now)
        ≡ flat_map (λ e. instead stamp corrections.now e ∷ before stamp corrections.now e.entry.key) (reverse list.now) }
{
    let _ = corrections;
    let _ = list;
}

/// Without a correction the list is what it was.
pub fn nothing_corrected(list: &[StampedEntry<Filing>])
    ensures { (stamp : Stamp) → amended stamp [] (reverse list.now) ≡ reverse list.now }
{
    let _ = list;
}
