//! What differs between two lists.
ghost use Rattle.std.specs.Prelude.{◌≡◌, ◌<◌, ◌≤◌, ◌+◌, ◌∷◌, ◌++◌, [], List, IfOk, OnOk, length, option_map, reverse, codes};
ghost use Rattle.aid_filings.specs.declared.filing.Filing.{Filing as AnyFiling};
ghost use Rattle.log_stamps.specs.Entries.{stamped, with_stamp};
ghost use Rattle.log_stamps.specs.declared.entry.StampedEntry.{StampedEntry as Entry};
ghost use Rattle.office_amends.specs.Changes.{Differences, HasCompared, alone, changes_text, counts_line, entry_in, is_same as is_same_of, of_new, of_old, paired, side_line};
ghost use Rattle.office_history.specs.Past.{key_at};

use crate::lines::put_whole_row;
use aid_filings::Filing;
use aid_stamps::Stamp;
use office_index::Office;
use office_sheets::{clerk_or_hyphen, put_bytes, put_day_column, put_number};
use std::alloc::{AllocError, Global};

/// What was told of two lists so far: the lines of the keys that differ, and how many keys don't and do.
#[derive(Drop)]
pub struct Comparison {
    pub text: Vec<u8>,
    pub same: u32,
    pub differ: u32,
}

/// What differs between two lists, key by key: of each key of the old list, the oldest first, under which the new one has no filing, or
/// another one or another stamp, the line of what either has; behind them the line of each key that only the new list has; and then how
/// many keys are the same and how many differ. Where a filing stands isn't compared. Two look-ups for each filing. An `Err` is want of
/// memory.
pub fn changes(
    alloc: Global,
    old: &Office,
    old_stamps: &[Stamp],
    new: &Office,
    new_stamps: &[Stamp],
) -> Result<Vec<u8>, AllocError>
    requires old_stamped { length old_stamps.now ≡ length old.now.history }
    requires new_stamped { length new_stamps.now ≡ length new.now.history }
    ensures { IfOk result (λ text. text.items ≡ changes_text (stamped old.now.history (reverse old_stamps.now)) (stamped new.now.history (reverse new_stamps.now))) }
{
    let mut told = Comparison {
        text: Vec::new(alloc),
        same: 0,
        differ: 0,
    };
    compare_old(old, old_stamps, new, new_stamps, &mut told)?;
    compare_new(old, old_stamps, new, new_stamps, &mut told)?;
    put_counts(&mut told)?;
    Ok(told.text)
}

// Compares the keys of the old list.
fn compare_old(
    old: &Office,
    old_stamps: &[Stamp],
    new: &Office,
    new_stamps: &[Stamp],
    told: &mut Comparison,
) -> Result<(), AllocError>
    requires old_stamped { length old_stamps.now ≡ length old.now.history }
    requires new_stamped { length new_stamps.now ≡ length new.now.history }
    requires nothing { HasCompared (of_old [] []) told.old }
    ensures compared { let past = stamped new.now.history (reverse new_stamps.now) in
        OnOk result (HasCompared (of_old past (stamped old.now.history (reverse old_stamps.now))) told.new) }
    ensures few { OnOk result (told.new.differ ≤ 1000000) }
{
    let filings = old.filings();
    for index in 0..old.front() {
        let place = index as usize;
        put_pair(
            index + 1,
            &filings[place],
            &old_stamps[place],
            new,
            new_stamps,
            told,
        )?;
    }
    Ok(())
}

// Compares the key of an entry of the old list with what the new list has under it.
fn put_pair(
    position: u32,
    filing: &Filing,
    stamp: &Stamp,
    new: &Office,
    new_stamps: &[Stamp],
    told: &mut Comparison,
) -> Result<(), AllocError>
    requires new_stamped { length new_stamps.now ≡ length new.now.history }
    requires same { told.old.same + 1 ≤ 1000000 }
    requires differ { told.old.differ + 1 ≤ 1000000 }
    ensures compared { let past = stamped new.now.history (reverse new_stamps.now) in
        let to = key_at filing.now.key new.now.history in
        (d : Differences) → HasCompared d told.old
        → OnOk result (HasCompared (paired d position (with_stamp stamp.now filing.now) to (entry_in past to)) told.new) }
    ensures same { OnOk result (told.new.same ≤ told.old.same + 1) }
    ensures differ { OnOk result (told.new.differ ≤ told.old.differ + 1) }
{
    let to = new.position(&filing.key);
    match entry_at(new, new_stamps, to) {
        None => put_side("old", position, filing, stamp, &mut told.text)?,
        Some((other, under)) => {
            if is_same(filing, stamp, other, under) {
                told.same += 1;
                return Ok(());
            }
            put_side("old", position, filing, stamp, &mut told.text)?;
            put_side("new", to, other, under, &mut told.text)?;
        }
    }
    told.differ += 1;
    Ok(())
}

// Compares the keys of the new list that the old one hasn't.
fn compare_new(
    old: &Office,
    old_stamps: &[Stamp],
    new: &Office,
    new_stamps: &[Stamp],
    told: &mut Comparison,
) -> Result<(), AllocError>
    requires old_stamped { length old_stamps.now ≡ length old.now.history }
    requires new_stamped { length new_stamps.now ≡ length new.now.history }
    requires few { told.old.differ ≤ 1000000 }
    ensures compared { let past = stamped old.now.history (reverse old_stamps.now) in
        (d : Differences) → HasCompared d told.old → OnOk result (HasCompared (of_new past d (stamped new.now.history (reverse new_stamps.now))) told.new) }
{
    let filings = new.filings();
    for index in 0..new.front() {
        let place = index as usize;
        put_alone(
            index + 1,
            &filings[place],
            &new_stamps[place],
            old,
            old_stamps,
            told,
        )?;
    }
    Ok(())
}

// The key of an entry of the new list, where the old list hasn't it.
fn put_alone(
    position: u32,
    filing: &Filing,
    stamp: &Stamp,
    old: &Office,
    old_stamps: &[Stamp],
    told: &mut Comparison,
) -> Result<(), AllocError>
    requires old_stamped { length old_stamps.now ≡ length old.now.history }
    requires differ { told.old.differ + 1 ≤ 2000000 }
    ensures compared { let past = stamped old.now.history (reverse old_stamps.now) in
        (d : Differences) → HasCompared d told.old
        → OnOk result (HasCompared (alone d position (with_stamp stamp.now filing.now) (entry_in past (key_at filing.now.key old.now.history))) told.new) }
    ensures differ { OnOk result (told.new.differ ≤ told.old.differ + 1) }
{
    if entry_at(old, old_stamps, old.position(&filing.key)).is_some() {
        return Ok(());
    }
    put_side("new", position, filing, stamp, &mut told.text)?;
    told.differ += 1;
    Ok(())
}

// The entry at a position of a list.
fn entry_at<'a>(
    office: &'a Office,
    stamps: &'a [Stamp],
    position: u32,
) -> Option<(&'a Filing, &'a Stamp)>
    requires { length stamps.now ≡ length office.now.history }
    ensures { option_map (λ r. with_stamp r.1.now r.0.now) result ≡ entry_in (stamped office.now.history (reverse stamps.now)) position }
{
    let filing = office.filing(position)?;
    Some((filing, &stamps[position as usize - 1]))
}

// Whether two entries are the same filing under the same stamp.
fn is_same(filing: &Filing, stamp: &Stamp, other: &Filing, under: &Stamp) -> bool
    ensures { result ≡ is_same_of (with_stamp stamp.now filing.now) (with_stamp under.now other.now) }
{
    filing == other && stamp == under
}

// Appends the line of an entry of one of the lists.
fn put_side(
    side: &str,
    position: u32,
    filing: &Filing,
    stamp: &Stamp,
    out: &mut Vec<u8>,
) -> Result<(), AllocError>
    ensures { OnOk result (out.new.items ≡ out.old.items ++ side_line side.now position (with_stamp stamp.now filing.now)) }
{
    put_bytes(side.as_bytes(), b' ', out)?;
    put_number(u64::from(position), b' ', out)?;
    put_day_column(stamp.day, b' ', out)?;
    put_bytes(clerk_or_hyphen(stamp.clerk.as_bytes()), b' ', out)?;
    put_whole_row(filing, b'\n', out)
}

// Appends the last line.
fn put_counts(told: &mut Comparison) -> Result<(), AllocError>
    ensures { (d : Differences) → HasCompared d told.old → OnOk result (told.new.text.items ≡ d.text ++ counts_line d) }
{
    put_bytes(b"same", b' ', &mut told.text)?;
    put_number(u64::from(told.same), b' ', &mut told.text)?;
    put_bytes(b"differ", b' ', &mut told.text)?;
    put_number(u64::from(told.differ), b'\n', &mut told.text)
}
