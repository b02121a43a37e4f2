//! The new list of an old one.
ghost use Rattle.std.specs.Prelude.{◌≡◌, ◌<◌, ◌≤◌, ◌^◌, ◌+◌, ◌*◌, ◌∷◌, ◌++◌, ℕ, List, IfOk, OnOk, length, reverse};
ghost use Rattle.std.specs.Option.{option_copied};
ghost use Rattle.aid_filings.specs.declared.filing.Filing.{Filing as AnyFiling};
ghost use Rattle.log_stamps.specs.Entries.{entries, stamped, with_stamp};
ghost use Rattle.log_stamps.specs.declared.entry.StampedEntry.{StampedEntry as Entry};
ghost use Rattle.office_amends.specs.Amended.{amended, before, corrected, in_place, inserted, named_at as named_at_of, names as names_of, put_of, recorded, records};
ghost use Rattle.office_amends.specs.Lines.{inserted_line};
ghost use Rattle.office_amends.specs.Stood.{Makes};
ghost use Rattle.office_history.specs.Past.{same_key};
ghost use Rattle.office_amends.specs.Texts.{no_line, told, told_change, told_corrected, told_place, told_put};

use crate::amending::Amended;
use crate::correction::{Change, Correction};
use crate::lines::{put_inserted, put_replaced, put_voided};
use aid_filings::{Filing, Outcome};
use aid_stamps::Stamp;
use aid_types::Key;
use office_index::Office;
use office_sheets::copy_filing;
use std::alloc::{AllocError, Global};

/// What becomes of the list of an office with corrections, under the stamp of the run: each filing is judged behind those that stand, and
/// one that doesn't stand is left out of those that follow. The old office is left as it is. An `Err` is want of memory.
pub fn amend_list(
    alloc: Global,
    old: &Office,
    stamps: &[Stamp],
    stamp: &Stamp,
    corrections: &[Correction],
) -> Result<Amended, AllocError>
    requires as_many { length stamps.now ≡ length old.now.history }
    requires few { length corrections.now ≤ 16777217 }
    ensures { let past = stamped old.now.history (reverse stamps.now) in
        IfOk result (λ made. Makes (amended stamp.now corrections.now past) (told stamp.now corrections.now past) made) }
{
    let filings = old.filings();
    let mut made = Amended::new(alloc);
    for index in 0..old.front() {
        pass(
            alloc,
            old,
            &filings[index as usize],
            index,
            &stamps[index as usize],
            stamp,
            corrections,
            &mut made,
        )?;
    }
    put_records(alloc, stamp, corrections, &mut made)?;
    Ok(made)
}

// Tells and files what becomes of the filing at an index of the old list.
fn pass(
    alloc: Global,
    old: &Office,
    filing: &Filing,
    index: u32,
    stamp: &Stamp,
    run: &Stamp,
    corrections: &[Correction],
    made: &mut Amended,
) -> Result<(), AllocError>
    requires few { length corrections.now ≤ 16777217 }
    requires position { made.old.position ≤ 20000000 * index }
    requires inside { index < length old.now.history }
    requires index { index < 1000000 }
    ensures position { OnOk result (made.new.position ≤ 20000000 * (index + 1)) }
    ensures makes { (past : List (Entry AnyFiling)) (newer : List AnyFiling) → old.now.history ≡ newer ++ filing.now ∷ entries past → length past ≡ index
        → Makes (corrected run.now corrections.now past) (told_corrected run.now corrections.now past) made.old
        → OnOk result (Makes (corrected run.now corrections.now (with_stamp stamp.now filing.now ∷ past)) (told_corrected run.now corrections.now (with_stamp stamp.now filing.now ∷ past)) made.new) }
{
    let Some(was) = old.outcome(index + 1) else {
        unreachable!();
    };
    put_insertions(alloc, run, corrections, &filing.key, made)?;
    put_place(
        alloc,
        filing,
        stamp,
        run,
        was,
        named_at(corrections, &filing.key),
        made,
    )
}

// Tells and files what is put in front of the filing with a key.
fn put_insertions(
    alloc: Global,
    run: &Stamp,
    corrections: &[Correction],
    key: &Key,
    made: &mut Amended,
) -> Result<(), AllocError>
    requires few { length corrections.now ≤ 16777217 }
    requires position { made.old.position + 16777217 < 2 ^ 64 }
    ensures position { OnOk result (made.new.position ≤ made.old.position + length corrections.now) }
    ensures makes { (list : List (Entry AnyFiling)) (text : List ℕ) → Makes list text made.old
        → OnOk result (Makes (before run.now corrections.now key.now ++ list) (text ++ told_put inserted_line list (before run.now corrections.now key.now)) made.new) }
{
    for correction in corrections {
        put_insertion(alloc, run, &correction.change, key, made)?;
    }
    Ok(())
}

// The same of one correction.
fn put_insertion(
    alloc: Global,
    run: &Stamp,
    change: &Change,
    key: &Key,
    made: &mut Amended,
) -> Result<(), AllocError>
    requires few { made.old.position + 1 < 2 ^ 64 }
    ensures position { OnOk result (made.new.position ≤ made.old.position + 1) }
    ensures makes { (list : List (Entry AnyFiling)) (text : List ℕ) → Makes list text made.old
        → OnOk result (Makes (inserted run.now change.now key.now ++ list) (text ++ told_put inserted_line list (inserted run.now change.now key.now)) made.new) }
{
    let Change::Insert { filing, before } = change else {
        return Ok(());
    };
    if !is_same_key(before, key) {
        return Ok(());
    }
    put_inserted(made.position + 1, filing, &mut made.text)?;
    made.file(run, copy_filing(alloc, filing)?, None)
}

// Tells and files what stands in the place of a filing.
fn put_place(
    alloc: Global,
    filing: &Filing,
    stamp: &Stamp,
    run: &Stamp,
    was: Outcome,
    named: Option<&Correction>,
    made: &mut Amended,
) -> Result<(), AllocError>
    requires few { made.old.position + 1 < 2 ^ 64 }
    ensures position { OnOk result (made.new.position ≤ made.old.position + 1) }
    ensures makes { (list : List (Entry AnyFiling)) (text : List ℕ) → Makes list text made.old
        → OnOk result (Makes (in_place run.now (with_stamp stamp.now filing.now) (option_copied named.entry) ∷ list) (text ++ told_place list filing.now was (option_copied named.entry)) made.new) }
{
    match named {
        None => made.file(stamp, copy_filing(alloc, filing)?, Some(was)),
        Some(correction) => put_change(alloc, filing, run, was, correction, made),
    }
}

// The same where a correction names it.
fn put_change(
    alloc: Global,
    filing: &Filing,
    run: &Stamp,
    was: Outcome,
    correction: &Correction,
    made: &mut Amended,
) -> Result<(), AllocError>
    requires few { made.old.position + 1 < 2 ^ 64 }
    ensures position { OnOk result (made.new.position ≤ made.old.position + 1) }
    ensures makes { (list : List (Entry AnyFiling)) (text : List ℕ) → Makes list text made.old
        → OnOk result (Makes (with_stamp run.now (put_of correction.now.record correction.now.change) ∷ list)
        (text ++ told_change list filing.now was correction.now.record correction.now.change) made.new) }
{
    match &correction.change {
        Change::Replace(new) => {
            put_replaced(made.position + 1, filing, new, &mut made.text)?;
            made.file(run, copy_filing(alloc, new)?, Some(was))
        }
        Change::Void(_) => {
            put_voided(made.position + 1, filing, &mut made.text)?;
            made.file(run, copy_filing(alloc, &correction.record)?, None)
        }
        Change::Insert { filing: new, .. } => made.file(run, copy_filing(alloc, new)?, None),
    }
}

// Tells and files the records of what was replaced and put in.
fn put_records(
    alloc: Global,
    run: &Stamp,
    corrections: &[Correction],
    made: &mut Amended,
) -> Result<(), AllocError>
    requires few { length corrections.now ≤ 16777217 }
    requires position { made.old.position + 16777217 < 2 ^ 64 }
    ensures makes { (list : List (Entry AnyFiling)) (text : List ℕ) → Makes list text made.old
        → OnOk result (Makes (records run.now corrections.now ++ list) (text ++ told_put no_line list (records run.now corrections.now)) made.new) }
{
    for correction in corrections {
        put_record(alloc, run, correction, made)?;
    }
    Ok(())
}

// The same of one correction.
fn put_record(
    alloc: Global,
    run: &Stamp,
    correction: &Correction,
    made: &mut Amended,
) -> Result<(), AllocError>
    requires few { made.old.position + 1 < 2 ^ 64 }
    ensures position { OnOk result (made.new.position ≤ made.old.position + 1) }
    ensures makes { (list : List (Entry AnyFiling)) (text : List ℕ) → Makes list text made.old
        → OnOk result (Makes (recorded run.now correction.now.record correction.now.change ++ list)
        (text ++ told_put no_line list (recorded run.now correction.now.record correction.now.change)) made.new) }
{
    match &correction.change {
        Change::Void(_) => Ok(()),
        Change::Replace(_) | Change::Insert { .. } => {
            made.file(run, copy_filing(alloc, &correction.record)?, None)
        }
    }
}

// The first correction that names the filing with a key.
pub(crate) fn named_at<'a>(corrections: &'a [Correction], key: &Key) -> Option<&'a Correction>
    ensures { option_copied result ≡ named_at_of corrections.now key.now }
{
    let (first, rest) = corrections.split_first()?;
    if names(&first.change, key) {
        Some(first)
    } else {
        named_at(rest, key)
    }
}

// Whether a correction names it.
fn names(change: &Change, key: &Key) -> bool
    ensures { result ≡ names_of change.now key.now }
{
    match change {
        Change::Replace(filing) => is_same_key(&filing.key, key),
        Change::Void(of) => is_same_key(of, key),
        Change::Insert { .. } => false,
    }
}

// Whether two keys are one.
fn is_same_key(one: &Key, other: &Key) -> bool
    ensures { result ≡ same_key one.now other.now }
{
    one == other
}
