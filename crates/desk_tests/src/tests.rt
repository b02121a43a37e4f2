// Marks are filed, kept and filed again.
use crate::{Left, Mark, MarkList, file_marks};
use aid_types::Refusal;
use io_memory::{MemoryDisk, MemorySink, SteadySource};
use log_machine::{FoundFault, Log, LogReply, OpenError, StateMachine};
use log_rules::RuleResponse;
use log_session::found;
use std::alloc::Global;
use std::process::Abort;
use std::test::Fail;

macro_rules! filed {
    ($number:literal, $amount:literal, $front:literal: $($reply:tt)+) => {
        Filed {
            number: $number,
            amount: $amount,
            front: $front,
            reply: Wanted::$($reply)+,
        }
    };
}

// A mark that is filed after so many, and how it is answered.
#[derive(Clone, Copy)]
struct Filed {
    number: u32,
    amount: u8,
    front: u32,
    reply: Wanted,
}

// The reply that is wanted.
#[derive(Clone, Copy)]
enum Wanted {
    // The points that are left.
    Accepted(u16),
    // At this position, with these points.
    Again(u32, u16),
    // The rule, what it kept, and its bound.
    Refused(u16, u64, u64),
}

const FIRST: [Filed; 4] = [
    filed!(7, 99, 0: Accepted(900)),
    filed!(8, 199, 1: Accepted(700)),
    filed!(7, 99, 2: Again(1, 900)),
    filed!(7, 98, 2: Refused(15, 1, 7)),
];

const LATER: [Filed; 8] = [
    filed!(8, 199, 2: Again(2, 700)),
    filed!(8, 198, 2: Refused(15, 2, 8)),
    filed!(9, 200, 2: Accepted(499)),
    filed!(3, 200, 3: Accepted(298)),
    filed!(10, 200, 4: Accepted(97)),
    filed!(11, 97, 5: Refused(201, 903, 1000)),
    filed!(3, 200, 5: Again(4, 298)),
    filed!(11, 96, 5: Accepted(0)),
];

fn mark(number: u32, amount: u8) -> Option<Mark> {
    if 1 <= number && number <= 999_999 && amount <= 200 {
        Some(Mark { number, amount })
    } else {
        None
    }
}

// An office of marks in memory, and what it replies.
type Office = Log<MemoryDisk, MarkList>;

type Reply = LogReply<RuleResponse<Left>>;

fn reply_of(wanted: Wanted, front: u32) -> Reply {
    let response = match wanted {
        Wanted::Accepted(points) => RuleResponse::Admit(Left { points }),
        Wanted::Again(position, points) => RuleResponse::Again {
            position,
            outcome: Left { points },
        },
        Wanted::Refused(rule, kept, bound) => RuleResponse::Refused(Refusal { rule, kept, bound }),
    };
    LogReply::Answered { response, front }
}

fn founded(alloc: Global, disk: MemoryDisk) -> Result<Office, FoundFault> {
    match Office::found(alloc, disk) {
        Ok(office) => Ok(office),
        Err((fault, _disk)) => Err(fault),
    }
}

fn opened(alloc: Global, disk: MemoryDisk) -> Result<Office, OpenError> {
    match Office::recover(alloc, disk) {
        Ok(office) => Ok(office),
        Err((error, _disk)) => Err(error),
    }
}

fn submit(office: &mut Office, mark: Mark) -> Reply {
    office.submit(mark)
}

// Whether a mark is answered so.
fn is_answered(office: &mut Office, filed: &Filed) -> bool {
    match mark(filed.number, filed.amount) {
        Some(mark) => submit(office, mark) == reply_of(filed.reply, filed.front),
        None => false,
    }
}

// How many marks in front are answered so.
fn answered(office: &mut Office, table: &[Filed]) -> usize {
    for (i, filed) in table.iter().enumerate() {
        if !is_answered(office, filed) {
            return i;
        }
    }
    table.len()
}

fn amount_at(marks: &MarkList, position: u32) -> Option<u8> {
    let mark = marks.filing(position)?;
    Some(mark.amount)
}

fn empty_disk(alloc: Global) -> Result<MemoryDisk, Fail> {
    Ok(MemoryDisk::new(alloc, Vec::new(alloc), Vec::new(alloc), None)?)
}

#[test]
fn marks_are_kept(rt: HostRuntime) -> Result<(), Fail> {
    let alloc = rt.alloc();
    let mut office = founded(alloc, empty_disk(alloc)?)?;
    assert!(rt; office.reserve(2).is_ok());
    assert_eq!(rt; answered(&mut office, &FIRST), 4);
    let mut office = opened(alloc, office.into_disk())?;
    assert_eq!(rt; office.machine().front(), 2);
    assert_eq!(rt; answered(&mut office, &LATER), 8);
    assert_marks(&rt, office.machine());
    Ok(())
}

// Six marks stand.
fn assert_marks(rt: &impl Abort, marks: &MarkList) {
    assert_eq!(rt; marks.front(), 6);
    for (position, amount) in [(0, None), (2, Some(199)), (6, Some(96)), (7, None)] {
        assert_eq!(rt; amount_at(marks, position), amount);
    }
    assert_eq!(rt; marks.index().total(), 1000);
    assert_eq!(rt; marks.filings().len(), 6);
}

#[test]
fn rows_are_answered(rt: HostRuntime) -> Result<(), Fail> {
    let alloc = rt.alloc();
    let disk = empty_disk(alloc)?;
    let mut sink = MemorySink::new(alloc, Vec::new(alloc));
    let (ended, mut disk) = found::<MemoryDisk, MemorySink, MarkList>(
        alloc,
        disk,
        b"founded\n",
        &mut sink,
    );
    assert!(rt; ended.is_ok());
    let texts: [(&[u8], &[u8]); 2] = [
        (
            b"mark,7,99\nmark,8,199\nmark,7,99\nmark,7,98\nmark,9,201\nmark,9\nmarks,1,1\nmark,x,1\n",
            b"1 0 accepted 1 left 900\n2 1 accepted 2 left 700\n3 2 again 1 left 900\n4 2 refused 15 1 7\n5 error 3 4\n6 error 0 2\n7 error 1 1\n8 error 2 3\n",
        ),
        (b"mark,8,199\n", b"1 2 again 2 left 700\n"),
    ];
    for (input, lines) in texts {
        let mut source = SteadySource::new(input.to_vec(alloc)?);
        let mut sink = MemorySink::new(alloc, Vec::new(alloc));
        let (ended, next) = file_marks(alloc, disk, &mut source, &mut sink);
        assert!(rt; ended.is_ok());
        assert_eq!(rt; sink.text(), lines);
        disk = next;
    }
    let bytes: &[u8] =
        b"\x01AIDPELL1\x02\0\0\0\0\0\0\x01\x06\0\0\0\x01\x07\0\0\0\x63\x01\x06\0\0\0\x01\x08\0\0\0\xc7\0";
    assert_eq!(rt; disk.image(), bytes);
    Ok(())
}

#[test]
fn the_version_before_is_told_apart(rt: HostRuntime) -> Result<(), Fail> {
    let alloc = rt.alloc();
    let bytes = b"\x01AIDPELL1\x01\0\0\0\0\0\0\0".to_vec(alloc)?;
    let disk = MemoryDisk::new(alloc, bytes, Vec::new(alloc), None)?;
    assert_eq!(rt; opened(alloc, disk).err(), Some(OpenError::OldVersion));
    Ok(())
}
