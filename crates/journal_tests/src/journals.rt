//! What no clause says of journals: the bytes of worked files, the answers at named files, and what faults and stops leave.
ghost use Rattle.std.specs.Prelude.{◌≤◌};

use crate::tools::{HEADER, assert_read, assert_same, disk, read};
use io_memory::{DiskStop, Fill};
use io_traits::{Disk, PayloadBuffer};
use log_journal::{OpenError, PutError, found};
use std::alloc::{AllocError, Global};
use std::process::Abort;

// A founded file without payloads.
pub(crate) const EMPTY: [u8; 17] = *b"\x01AIDPELL1\x01\0\0\0\0\0\0\0";

// A school with code 110, two terms and 12 full-time credits, filed as number 1.
const SCHOOL: [u8; 19] = *b"\x02\0\0\0\0\x01\0\0\0\0\0\0\0\x6e\0\0\0\x02\x0c";

// 550,000 units of the student 5001, filed as number 2.
const PRIOR: [u8; 25] = *b"\x04\0\0\0\0\x02\0\0\0\0\0\0\0\x89\x13\0\0\0\0\0\0\x70\x64\x08\0";

// The file of both.
pub(crate) const BOTH: [u8; 71] =
    *b"\x01AIDPELL1\x01\0\0\0\0\0\0\x01\x13\0\0\0\x02\0\0\0\0\x01\0\0\0\0\0\0\0\x6e\0\0\0\x02\x0c\x01\x19\0\0\0\x04\0\0\0\0\x02\0\0\0\0\0\0\0\x89\x13\0\0\0\0\0\0\x70\x64\x08\0\0";

// What a first put may write ahead: nothing, the payload that comes next, or another one of its length or not.
const GUESSES: [&[u8]; 4] = [&[], &PRIOR, &SCHOOL, &[9; 25]];

// How far a session came that founds a journal and puts both payloads.
#[derive(Clone, Copy, Debug, PartialEq, Eq)]
enum Went {
    NotFounded,
    First(PutError),
    Second(PutError),
    Well,
}

// Founds a journal, and puts both payloads. The first put writes the guess ahead.
fn session<D: Disk>(disk: D, guess: &[u8]) -> (Went, D) {
    let mut journal = match found(disk, HEADER) {
        Ok(journal) => journal,
        Err((_, disk)) => return (Went::NotFounded, disk),
    };
    match journal.put_ahead(&SCHOOL, guess) {
        Err(e) => (Went::First(e), journal.into_disk()),
        Ok(()) => match journal.put(&PRIOR) {
            Err(e) => (Went::Second(e), journal.into_disk()),
            Ok(()) => (Went::Well, journal.into_disk()),
        },
    }
}

fn founded<D: Disk>(disk: D) -> D {
    match found(disk, HEADER) {
        Ok(journal) => journal.into_disk(),
        Err((_error, disk)) => disk,
    }
}

#[test]
fn founds_a_worked_file(rt: HostRuntime) -> Result<(), AllocError> {
    let empty = founded(disk(rt.alloc(), &[], &[], None)?);
    assert_same(&rt, &"without payloads", &empty.image(), &EMPTY.as_slice());
    Ok(())
}

#[test]
fn writes_a_worked_file(rt: HostRuntime) -> Result<(), AllocError> {
    for guess in GUESSES {
        assert_writes(&rt, rt.alloc(), guess)?;
    }
    Ok(())
}

// A session with that guess writes the file of both payloads over what stood there.
fn assert_writes(rt: &impl Abort, alloc: Global, guess: &[u8]) -> Result<(), AllocError> {
    let (went, both) = session(disk(alloc, b"junk", &[], None)?, guess);
    assert_same(rt, &"how far it went", &went, &Went::Well);
    assert_same(rt, &"both payloads", &both.image(), &BOTH.as_slice());
    Ok(())
}

#[test]
fn answers_by_the_length(rt: HostRuntime) -> Result<(), AllocError> {
    let mut room = PayloadBuffer::new(rt.alloc())?;
    for len in 0..72 {
        assert_read(&rt, &len, rt.alloc(), &BOTH[..len], &mut room, of_cut(len))?;
    }
    Ok(())
}

#[test]
fn answers_by_each_byte(rt: HostRuntime) -> Result<(), AllocError> {
    let mut room = PayloadBuffer::new(rt.alloc())?;
    for place in 0..71 {
        let mut bytes = BOTH;
        bytes[place] = !bytes[place];
        assert_read(&rt, &place, rt.alloc(), &bytes, &mut room, of_turned(place))?;
    }
    Ok(())
}

#[test]
fn answers_by_the_bytes_of_an_empty_journal(rt: HostRuntime) -> Result<(), AllocError> {
    let mut room = PayloadBuffer::new(rt.alloc())?;
    for place in 0..17 {
        let mut bytes = EMPTY;
        bytes[place] = 7;
        assert_read(&rt, &place, rt.alloc(), &bytes, &mut room, of_seven(place))?;
    }
    Ok(())
}

// The answer where the file of both is cut to so many bytes.
fn of_cut(len: usize) -> Result<u64, OpenError> {
    match len {
        0..=16 => Err(OpenError::NoOffice),
        17..=39 => Err(OpenError::Damaged(16)),
        40..=69 => Err(OpenError::Damaged(40)),
        70 => Err(OpenError::Damaged(70)),
        _ => Ok(2),
    }
}

// The answer where all bits of one of its bytes are turned.
fn of_turned(place: usize) -> Result<u64, OpenError> {
    match place {
        0..=15 => Err(OpenError::NotJournal),
        16 => Ok(0),
        17..=20 => Err(OpenError::Damaged(16)),
        40 => Ok(1),
        41..=44 => Err(OpenError::Damaged(40)),
        _ => Ok(2),
    }
}

// The answer where that byte of an empty journal is 7.
fn of_seven(place: usize) -> Result<u64, OpenError> {
    match place {
        0 => Err(OpenError::NoOffice),
        1..=15 => Err(OpenError::NotJournal),
        _ => Ok(0),
    }
}

#[test]
fn says_what_a_fault_left(rt: HostRuntime) -> Result<(), AllocError> {
    for call in 1..18 {
        assert_went(&rt, rt.alloc(), call, &[], of_fault(call))?;
        assert_went(&rt, rt.alloc(), call, &PRIOR, of_fault_ahead(call))?;
    }
    Ok(())
}

// How far a session with that guess comes where that call fails.
fn assert_went(
    rt: &impl Abort,
    alloc: Global,
    call: u64,
    guess: &[u8],
    wanted: Went,
) -> Result<(), AllocError> {
    let (went, _disk) = session(disk(alloc, b"junk", &[call], None)?, guess);
    assert_same(rt, &call, &went, &wanted);
    Ok(())
}

// How far a session comes where that call fails.
fn of_fault(call: u64) -> Went {
    let before = PutError::DiskFault { undecided: false };
    let either = PutError::DiskFault { undecided: true };
    match call {
        1..=8 => Went::NotFounded,
        9 | 10 => Went::First(before),
        11 | 12 => Went::First(either),
        13 | 14 => Went::Second(before),
        15 | 16 => Went::Second(either),
        _ => Went::Well,
    }
}

// The same where the first put writes the second payload ahead, by a call before that of its gate: the second put then takes two.
fn of_fault_ahead(call: u64) -> Went {
    let before = PutError::DiskFault { undecided: false };
    let either = PutError::DiskFault { undecided: true };
    match call {
        1..=10 => of_fault(call),
        11 => Went::First(before),
        12 | 13 => Went::First(either),
        14 | 15 => Went::Second(either),
        _ => Went::Well,
    }
}

#[test]
fn keeps_what_stood_where_it_stops_with_a_payload_ahead(rt: HostRuntime) -> Result<(), AllocError> {
    let mut room = PayloadBuffer::new(rt.alloc())?;
    for guess in GUESSES {
        assert_stops(&rt, rt.alloc(), guess, &mut room)?;
    }
    Ok(())
}

// A session with that guess that stops at each of its calls, in each way.
fn assert_stops(
    rt: &impl Abort,
    alloc: Global,
    guess: &[u8],
    room: &mut PayloadBuffer,
) -> Result<(), AllocError> {
    for call in 9..18 {
        assert_stop(rt, alloc, guess, call, Fill::Unwritten, room)?;
        assert_stop(rt, alloc, guess, call, Fill::Written, room)?;
        assert_stop(rt, alloc, guess, call, Fill::With(1), room)?;
        assert_stop(rt, alloc, guess, call, Fill::With(7), room)?;
    }
    Ok(())
}

// A session that stops at a call leaves what was put for sure, or what a fault left undecided with it.
fn assert_stop(
    rt: &impl Abort,
    alloc: Global,
    guess: &[u8],
    call: u64,
    fill: Fill,
    room: &mut PayloadBuffer,
) -> Result<(), AllocError> {
    let stopping = disk(alloc, b"", &[], Some(DiskStop { call, fill }))?;
    let (went, stopped) = session(stopping, guess);
    let stood = read(disk(alloc, stopped.image(), &[], None)?, room);
    let (sure, more) = standing(went);
    assert!(rt;
        stood == Ok(sure) || (more && stood == Ok(sure + 1)),
        "call {call}"
    );
    Ok(())
}

// Founds a journal, and puts a payload into a file that was made longer.
fn lengthened<D: Disk + Drop>(disk: D) -> Option<D> {
    let Ok(mut journal) = found(disk, HEADER) else {
        return None;
    };
    journal.allow_lengthening();
    if journal.lengthen(SCHOOL.len()).is_err() {
        return None;
    }
    match journal.put(&SCHOOL) {
        Ok(()) => Some(journal.into_disk()),
        Err(_) => None,
    }
}

#[test]
fn lengthens_by_zeros(rt: HostRuntime) -> Result<(), AllocError> {
    let left = lengthened(disk(rt.alloc(), b"", &[], None)?);
    assert!(rt; left.is_some_and(|left| ends_in_zeros(left.image())));
    Ok(())
}

// A file of the first payload, made longer once.
fn ends_in_zeros(image: &[u8]) -> bool {
    image.len() == 17 + 4096
        && image.starts_with(&BOTH[..40])
        && image.iter().skip(40).all(|byte| *byte == 0)
}

// How many payloads stand for sure where a session came so far, and whether one more may.
fn standing(went: Went) -> (u64, bool)
    ensures { result.0 ≤ 2 }
{
    match went {
        Went::NotFounded => (0, false),
        Went::First(PutError::DiskFault { undecided }) => (0, undecided),
        Went::Second(PutError::DiskFault { undecided }) => (1, undecided),
        Went::Well => (2, false),
    }
}
