// A stamped list over a disk in memory.
use crate::files::disk;
use crate::rising::Rising;
use crate::stamped::{answer_number, is_added, stamp_of};
use aid_stamps::{ClerkName, Stamp};
use aid_types::Day;
use io_memory::MemoryDisk;
use log_machine::{Log, LogReply, StateMachine};
use log_stamps::StampedMachine;
use std::alloc::Global;
use std::process::Abort;

// The file of the number 5 under the plain stamp and of 6 by `brown` on 2025-09-01, which is day 20,332.
const FILE: &[u8] =
    b"\x01NUMBERS1\x02\0\0\0\0\0\0\x01\x06\0\0\0\0\0\0\0\0\x05\x01\x0b\0\0\0\x6c\x4f\0\0\x05brown\x06\0";

type StampedNumbers = Log<MemoryDisk, StampedMachine<Rising>>;

// The stamp of the second number.
fn brown(rt: &impl Abort) -> Stamp {
    Stamp {
        day: Day(20_332),
        clerk: ClerkName::new(b"brown").expect(rt, "a name"),
    }
}

// A new list with room for three numbers.
fn founded(rt: &impl Abort, alloc: Global) -> StampedNumbers {
    match StampedNumbers::found(alloc, disk(rt, alloc, b"", &[], None)) {
        Ok(mut list) => {
            list.reserve(3).expect(rt, "memory");
            list
        }
        Err((error, _)) => panic!(rt; "{error:?}"),
    }
}

// The list of a disk's file.
fn recovered(rt: &impl Abort, alloc: Global, disk: MemoryDisk) -> StampedNumbers {
    match StampedNumbers::recover(alloc, disk) {
        Ok(list) => list,
        Err((error, _)) => panic!(rt; "{error:?}"),
    }
}

// A number is kept or refused.
fn assert_answer(
    rt: &impl Abort,
    list: &mut StampedNumbers,
    number: u8,
    stamp: &Stamp,
    is_kept: bool,
) {
    match answer_number(list, number, *stamp) {
        LogReply::Answered { response, .. } => assert_eq!(rt; is_added(response), is_kept),
        _ => assert!(rt; false),
    }
}

// Files 5 under the plain stamp and 6 under another, and 6 again. Gives the disk.
fn filed(rt: &impl Abort, alloc: Global, brown: &Stamp) -> MemoryDisk {
    let mut list = founded(rt, alloc);
    assert_answer(rt, &mut list, 5, &Stamp::plain(), true);
    assert_answer(rt, &mut list, 6, brown, true);
    assert_answer(rt, &mut list, 6, &Stamp::plain(), false);
    list.into_disk()
}

// Two numbers stand, each with its stamp.
fn assert_stamps(rt: &impl Abort, list: &StampedNumbers, brown: &Stamp) {
    assert_eq!(rt; list.machine().front(), 2);
    let stamps = [
        (0, None),
        (1, Some(Stamp::plain())),
        (2, Some(*brown)),
        (3, None),
    ];
    for (position, stamp) in stamps {
        assert_eq!(rt; stamp_of(list, position), stamp);
    }
}

#[test]
fn numbers_are_stamped(rt: HostRuntime) {
    let brown = brown(&rt);
    let disk = filed(&rt, rt.alloc(), &brown);
    assert_eq!(rt; disk.image(), FILE);
    let list = recovered(&rt, rt.alloc(), disk);
    assert_stamps(&rt, &list, &brown);
}

// The bytes of a stamp, and the place of the first field that is wrong: a day past 9999-12-31, a name of 33 bytes, and one that
// begins with a hyphen are wrong.
const WRONG: [(&[u8], u64); 7] = [
    (b"", 0),
    (b"\x01\x02\x03", 0),
    (b"\xa1\xc0\x2c\0\0", 0),
    (b"\0\0\0\0", 4),
    (b"\0\0\0\0\x21abcdefghijklmnopqrstuvwxyzabcdefg", 4),
    (b"\0\0\0\0\x03ab", 5),
    (b"\0\0\0\0\x03-ab", 5),
];

// The bytes of a stamp and a `!` behind them, and its day: 1900-01-01 and 9999-12-31.
const DAYS: [(&[u8], i32); 2] = [
    (b"\x21\x9c\xff\xff\x01a!", -25_567),
    (b"\xa0\xc0\x2c\0\0!", 2_932_896),
];

#[test]
fn stamps_are_read(rt: HostRuntime) {
    for (bytes, place) in WRONG {
        assert_eq!(rt; day_of(&rt, bytes), Err(place));
    }
    for (bytes, day) in DAYS {
        assert_eq!(rt; day_of(&rt, bytes), Ok(day));
    }
}

// The day of the stamp at the front of the bytes, behind which a `!` stands, or the place of what is wrong.
fn day_of(rt: &impl Abort, bytes: &[u8]) -> Result<i32, u64> {
    match Stamp::read(bytes) {
        Ok((stamp, behind)) => {
            assert_eq!(rt; behind, b"!".as_slice());
            Ok(stamp.day.0)
        }
        Err(place) => Err(place),
    }
}
