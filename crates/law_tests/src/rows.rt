//! Tables of sorted rows, and rows that stay at their slots: each key is found with the value that it was last given, in
//! whatever order the keys came.
ghost use Rattle.std.specs.Prelude.{◌≡◌, ◌<◌};

use sorted_rows::{Slots, Steps, Table};
use std::alloc::AllocError;
use std::collections::BTreeMap;
use std::marker::Brand;
use std::process::Abort;
use std::sync::ledger::{Blank, Ledger};
use std::test::Fail;

/// More keys than four tails hold.
const KEYS: u32 = 5_000;

/// A long row.
type Page = [u32; 40];

/// A key of two fields.
#[derive(Clone, Copy, PartialEq, Eq, PartialOrd, Ord, Debug)]
struct Seat {
    school: u16,
    student: u32,
}

// The key of a turn: multiples of an odd number, all different and in no order.
fn key_at(turn: u32) -> u32 {
    turn.wrapping_mul(2_654_435_761)
}

#[test]
fn keys_in_no_order(rt: HostRuntime) -> Result<(), Fail> {
    let mut table = Table::new(rt.alloc());
    let mut map = BTreeMap::new(rt.alloc());
    write_keys(&mut table, &mut map, KEYS, 1, 0)?;
    // Some are written once more, and some were never written.
    write_keys(&mut table, &mut map, KEYS / 3, 3, KEYS)?;
    for turn in 0..2 * KEYS {
        let key = key_at(turn);
        assert_eq!(rt; table.at(&key), map.get(&key).copied(), "{key}");
    }
    Ok(())
}

// Writes the keys of so many turns, each so many behind the one before it, with numbers from the first on.
fn write_keys(
    table: &mut Table<u32, u32>,
    map: &mut BTreeMap<u32, u32>,
    turns: u32,
    step: u32,
    first: u32,
) -> Result<(), AllocError> {
    for turn in 0..turns {
        let key = key_at(step.wrapping_mul(turn));
        let value = first.wrapping_add(turn);
        table.reserve(1)?;
        table.set(key, value);
        map.insert(key, value)?;
    }
    Ok(())
}

#[test]
fn keys_that_rise_and_fall(rt: HostRuntime) -> Result<(), Fail> {
    let mut table = Table::new(rt.alloc());
    for step in 0..KEYS {
        table.reserve(2)?;
        table.set(KEYS + step, step);
        table.set(KEYS - 1 - step, step);
    }
    for step in 0..KEYS {
        assert_eq!(rt; table.at(&(KEYS + step)), Some(step));
        assert_eq!(rt; table.at(&(KEYS - 1 - step)), Some(step));
    }
    assert_eq!(rt; table.at(&(2 * KEYS)), None);
    Ok(())
}

#[test]
fn keys_of_two_fields(rt: HostRuntime) -> Result<(), Fail> {
    let mut table = Table::new(rt.alloc());
    table.reserve(3)?;
    for (school, student, value) in [(2, 10, 'a'), (1, 20, 'b'), (2, 5, 'c')] {
        table.reserve(1)?;
        table.set(Seat { school, student }, value);
    }
    let found = [
        look::<Brand>(&table, 2, 10, Blank::new(1)),
        look::<Brand>(&table, 1, 20, Blank::new(1)),
        look::<Brand>(&table, 2, 5, Blank::new(1)),
        look::<Brand>(&table, 1, 5, Blank::new(1)),
    ];
    assert_eq!(rt; found, [Some('a'), Some('b'), Some('c'), None]);
    Ok(())
}

// What stands at a seat, with the looks counted on a blank.
fn look<L: Ledger>(
    table: &Table<Seat, char>,
    school: u16,
    student: u32,
    blank: Blank,
) -> Option<char>
    requires name { blank.name ≡ L.name }
    requires parts { blank.parts ≡ L.parts }
    requires some { 0 < blank.parts }
{
    let mut lookups: Steps<L> = Steps::new(blank);
    table.get(&Seat { school, student }, &mut lookups)
}

#[test]
fn rows_stay_at_their_slots(rt: HostRuntime) -> Result<(), Fail> {
    let mut slots = Slots::new(rt.alloc());
    for turn in 0..KEYS {
        let slot = put(&mut slots, key_at(turn), page(turn))?;
        assert_eq!(rt; slot, Some(turn));
    }
    write_again(&rt, &mut slots)?;
    for turn in 0..KEYS / 3 {
        assert_row(&rt, &slots, 3 * turn, page(KEYS + turn));
        assert_row(&rt, &slots, 3 * turn + 1, page(2 * KEYS + turn));
        assert_row(&rt, &slots, 3 * turn + 2, page(3 * turn + 2));
        assert_eq!(rt; slots.at(&key_at(KEYS + turn)), None);
    }
    assert_eq!(rt; slots.len(), KEYS as usize);
    Ok(())
}

// Writes a third of the rows once more by key, and a third by slot.
fn write_again(rt: &impl Abort, slots: &mut Slots<u32, Page>) -> Result<(), AllocError> {
    for turn in 0..KEYS / 3 {
        let slot = put(slots, key_at(3 * turn), page(KEYS + turn))?;
        assert_eq!(rt; slot, Some(3 * turn));
        write_at(slots, 3 * turn + 1, page(2 * KEYS + turn));
    }
    Ok(())
}

// The row at a slot has its key and this page.
fn assert_row(rt: &impl Abort, slots: &Slots<u32, Page>, slot: u32, wanted: Page) {
    let key = key_at(slot);
    assert_eq!(rt; row_at(slots, slot), Some((key, wanted)));
    assert_eq!(rt; slots.at(&key), Some(&wanted));
}

#[test]
fn slots_of_keys_that_fall(rt: HostRuntime) -> Result<(), Fail> {
    let mut slots = Slots::new(rt.alloc());
    slots.reserve(3)?;
    slots.put(30, 'a');
    slots.put(20, 'b');
    slots.put(10, 'c');
    let found = [
        find::<Brand>(&slots, 10, Blank::new(1)),
        find::<Brand>(&slots, 20, Blank::new(1)),
        find::<Brand>(&slots, 30, Blank::new(1)),
        find::<Brand>(&slots, 15, Blank::new(1)),
    ];
    assert_eq!(rt;
        found,
        [
            Some((2, 'c', 'c')),
            Some((1, 'b', 'b')),
            Some((0, 'a', 'a')),
            None
        ]
    );
    Ok(())
}

// A long row of one number.
fn page(number: u32) -> Page {
    [number; 40]
}

// Writes the page of a key, and answers its slot, as long as there are few.
fn put(slots: &mut Slots<u32, Page>, key: u32, value: Page) -> Result<Option<u32>, AllocError> {
    slots.reserve(1)?;
    if slots.len() <= KEYS as usize {
        Ok(Some(slots.put(key, value)))
    } else {
        Ok(None)
    }
}

// The row at a slot, if there is one.
fn row_at(slots: &Slots<u32, Page>, slot: u32) -> Option<(u32, Page)> {
    if (slot as usize) < slots.len() {
        Some(*slots.row(slot))
    } else {
        None
    }
}

// Writes over the row at a slot, if there is one.
fn write_at(slots: &mut Slots<u32, Page>, slot: u32, value: Page) {
    if (slot as usize) < slots.len() {
        slots.set(slot, value);
    }
}

// The slot of a key, and its value by slot and by key, with the looks counted on a blank.
fn find<L: Ledger>(slots: &Slots<u32, char>, key: u32, blank: Blank) -> Option<(u32, char, char)>
    requires name { blank.name ≡ L.name }
    requires parts { blank.parts ≡ L.parts }
    requires some { 0 < blank.parts }
{
    let mut lookups: Steps<L> = Steps::new(blank);
    let slot = slots.slot_of(&key, &mut lookups)?;
    let (_, value) = *slots.look(slot, &mut lookups);
    Some((slot, value, *slots.get(&key, &mut lookups)?))
}
