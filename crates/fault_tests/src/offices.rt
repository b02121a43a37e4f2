// Offices whose disk stops or fails in the middle of a turn, what they answer then, that room is kept for a turn, and the lines of
// their replies.
use aid_filings::{Filing, Operation, Outcome, PriorFacts, Response, SchoolFacts, What};
use aid_stamps::{ClerkName, Stamp};
use aid_types::{Day, Key, School, Student};
use format_bytes::{PayloadBuffer, TakeError, put, take};
use format_filings::put_answer;
use io_memory::{DiskStop, Fill, MemoryDisk};
use io_traits::Disk;
use log_machine::{FoundFault, Log, LogReply, OpenError, StateMachine};
use log_stamps::StampedOperation;
use office_log::{Stamped, StampedOfficeMachine};
use std::alloc::{AllocError, Global};
use std::process::Abort;
use std::test::Fail;
use whole_runs::{OLD, disk};

// The file of the two worked filings under the plain stamp.
const BOTH: [u8; 81] =
    *b"\x01AIDPELL1\x02\0\0\0\0\0\0\x01\x18\0\0\0\0\0\0\0\0\x02\0\0\0\0\x01\0\0\0\0\0\0\0\x6e\0\0\0\x02\x0c\x01\x1e\0\0\0\0\0\0\0\0\x04\0\0\0\0\x02\0\0\0\0\0\0\0\x89\x13\0\0\0\0\0\0\x70\x64\x08\0\0";

// What the office's desk files: the school 110, or the units that a student used before this office.
#[derive(Clone, Copy)]
enum Filed {
    School,
    Prior(u16, u32),
}

const SCHOOL: (u32, Filed) = (1, Filed::School);

const SECOND: (u32, Filed) = (2, Filed::Prior(5001, 550_000));

const THIRD: (u32, Filed) = (3, Filed::Prior(5002, 1));

// The school again, under a number of its own.
const SCHOOL_ANEW: (u32, Filed) = (4, Filed::School);

// What answers the two worked filings, the first again, and the school under another number.
const LINES: &[u8] =
    b"1 0 accepted 1 noted\n2 1 accepted 2 noted\n3 2 again 1 noted\n4 2 refused 13 1 110\n";

// The filing of a row under its number.
fn filing(rt: &impl Abort, row: (u32, Filed)) -> Filing {
    let (number, filed) = row;
    assert!(rt; number > 0);
    Filing {
        key: Key {
            school: School(0),
            number: u64::from(number),
        },
        what: what(rt, filed),
    }
}

// The ask to file a row under a stamp.
fn ask_under(rt: &impl Abort, stamp: Stamp, row: (u32, Filed)) -> Stamped {
    StampedOperation {
        operation: Operation::File(filing(rt, row)),
        stamp,
    }
}

// The ask to file a row under the plain stamp.
fn operation(rt: &impl Abort, row: (u32, Filed)) -> Stamped {
    ask_under(rt, Stamp::plain(), row)
}

fn what(rt: &impl Abort, filed: Filed) -> What {
    match filed {
        Filed::School => What::School(SchoolFacts {
            code: 110,
            terms: 2,
            full: 12,
        }),
        Filed::Prior(student, units) => What::Prior(PriorFacts {
            student: known(rt, student),
            units,
        }),
    }
}

fn known(rt: &impl Abort, student: u16) -> Student {
    assert!(rt; student > 0);
    Student(u64::from(student))
}

// An office in a journal, and what it replies.
type Office<D> = Log<D, StampedOfficeMachine>;

type Reply = LogReply<Response>;

fn founded<D: Disk + Drop>(alloc: Global, disk: D) -> Result<Office<D>, FoundFault> {
    match Log::found(alloc, disk) {
        Ok(office) => Ok(office),
        Err((fault, _disk)) => Err(fault),
    }
}

fn opened<D: Disk + Drop>(alloc: Global, disk: D) -> Result<Office<D>, OpenError> {
    match Log::recover(alloc, disk) {
        Ok(office) => Ok(office),
        Err((error, _disk)) => Err(error),
    }
}

// An office over a file of these bytes.
fn office_of(alloc: Global, bytes: &[u8]) -> Result<Office<MemoryDisk>, Fail> {
    Ok(opened(alloc, disk(alloc, bytes, &[], None)?)?)
}

// A new office, in an empty file.
fn new_office(alloc: Global) -> Result<Office<MemoryDisk>, Fail> {
    Ok(founded(alloc, disk(alloc, b"", &[], None)?)?)
}

fn submit<D: Disk>(office: &mut Office<D>, operation: Stamped) -> Reply {
    office.submit(operation)
}

fn front_of<D: Disk>(office: &Office<D>) -> u32 {
    office.machine().front()
}

fn stamp_at<D: Disk>(office: &Office<D>, position: u32) -> Option<Stamp> {
    office.machine().stamp(position)
}

fn disk_of<D: Disk>(office: Office<D>) -> D {
    office.into_disk()
}

// A row under the plain stamp is answered so.
fn assert_reply<D: Disk>(rt: &impl Abort, office: &mut Office<D>, row: (u32, Filed), reply: Reply) {
    let answered = submit(office, operation(rt, row));
    assert!(rt; answered == reply);
}

// The third row is answered so, one time after the other.
fn assert_third<D: Disk>(rt: &impl Abort, office: &mut Office<D>, replies: &[Reply]) {
    for reply in replies {
        assert_reply(rt, office, THIRD, *reply);
    }
}

// Opens an office of so many filings, and files the third row, which is answered so. Gives the disk.
fn open_and_file<D: Disk + Drop>(
    rt: &impl Abort,
    alloc: Global,
    disk: D,
    front: u32,
    replies: &[Reply],
) -> Result<D, OpenError> {
    let mut office = opened(alloc, disk)?;
    assert_eq!(rt; front_of(&office), front);
    assert_third(rt, &mut office, replies);
    Ok(disk_of(office))
}

// What answers a filing without figures that is admitted behind so many.
const FIRST: Reply = LogReply::Answered {
    response: Response::Admit(Outcome::Noted),
    front: 0,
};

const THIRD_ACCEPTED: Reply = LogReply::Answered {
    response: Response::Admit(Outcome::Noted),
    front: 2,
};

// What answers one that stands at a position among so many.
const SCHOOL_AGAIN: Reply = LogReply::Answered {
    response: Response::Again {
        position: 1,
        outcome: Outcome::Noted,
    },
    front: 2,
};

const THIRD_AGAIN: Reply = LogReply::Answered {
    response: Response::Again {
        position: 3,
        outcome: Outcome::Noted,
    },
    front: 3,
};

const UNDECIDED: Reply = LogReply::DiskFault { undecided: Some(3) };

// The byte that a stop leaves in the third gate, how many filings an office then has, and what it answers to the third.
const STOPS: [(u8, u32, Reply); 3] = [
    (0, 2, THIRD_ACCEPTED),
    (1, 3, THIRD_AGAIN),
    (7, 2, THIRD_ACCEPTED),
];

#[test]
fn stops_in_the_gate_write(rt: HostRuntime) -> Result<(), Fail> {
    for (left, front, reply) in STOPS {
        let stopped = stopped(&rt, rt.alloc(), left)?;
        let after = disk(rt.alloc(), stopped.image(), &[], None)?;
        open_and_file(&rt, rt.alloc(), after, front, &[reply, THIRD_AGAIN])?;
    }
    Ok(())
}

// A disk that stopped in the write of the third gate, which leaves that byte.
fn stopped(rt: &impl Abort, alloc: Global, left: u8) -> Result<MemoryDisk, Fail> {
    let stop = Some(DiskStop {
        call: 7,
        fill: Fill::With(left),
    });
    let stopping = disk(alloc, &BOTH, &[], stop)?;
    Ok(open_and_file(rt, alloc, stopping, 2, &[UNDECIDED, UNDECIDED])?)
}

// The calls of the disk that fail, and what answers the third row each time: the sync behind the gate fails, and then the write
// of the gate when it is settled.
#[test]
fn settles_at_last(rt: HostRuntime) -> Result<(), Fail> {
    let failing = disk(rt.alloc(), &BOTH, &[8], None)?;
    open_and_file(&rt, rt.alloc(), failing, 2, &[UNDECIDED, THIRD_AGAIN])?;
    let failing = disk(rt.alloc(), &BOTH, &[8, 9], None)?;
    open_and_file(
        &rt,
        rt.alloc(),
        failing,
        2,
        &[UNDECIDED, UNDECIDED, THIRD_AGAIN],
    )?;
    Ok(())
}

#[test]
fn reserves(rt: HostRuntime) -> Result<(), Fail> {
    let mut office = new_office(rt.alloc())?;
    office.reserve(2)?;
    assert_reply(&rt, &mut office, SCHOOL, FIRST);
    assert_eq!(rt; disk_of(office).image().len(), 46);
    Ok(())
}

// A payload without its last byte is none: its last field begins at byte 21.
#[test]
fn a_short_payload(rt: HostRuntime) {
    let error = take(rt.alloc(), &BOTH[55..79]).err();
    assert_eq!(rt; error, Some(TakeError::NotFiling(21)));
}

// A filing's one spelling, in the room of a payload.
#[test]
fn a_filing_is_spelled(rt: HostRuntime) -> Result<(), Fail> {
    let mut room = PayloadBuffer::new(rt.alloc())?;
    put(&filing(&rt, SECOND), &mut room);
    assert_eq!(rt; room.bytes(), &BOTH[55..80]);
    Ok(())
}

// Appends the line of a reply to the row of this number, where it has one.
fn put_line(number: u32, reply: &Reply, out: &mut Vec<u8>) -> Result<(), AllocError> {
    match reply {
        LogReply::Answered { response, front } => put_answer(number, *front, response, out),
        _ => Ok(()),
    }
}

// The lines of an office's replies, and the file that it leaves.
#[test]
fn an_office_answers(rt: HostRuntime) -> Result<(), Fail> {
    let mut office = new_office(rt.alloc())?;
    let mut text = Vec::new(rt.alloc());
    for (number, row) in [(1, SCHOOL), (2, SECOND), (3, SCHOOL), (4, SCHOOL_ANEW)] {
        let reply = submit(&mut office, operation(&rt, row));
        put_line(number, &reply, &mut text)?;
    }
    assert_eq!(rt; text.as_slice(), LINES);
    assert_eq!(rt; disk_of(office).image(), BOTH.as_slice());
    Ok(())
}

// The file of the same two filings, the second under a clerk's stamp.
const BY_BROWN: [u8; 86] =
    *b"\x01AIDPELL1\x02\0\0\0\0\0\0\x01\x18\0\0\0\0\0\0\0\0\x02\0\0\0\0\x01\0\0\0\0\0\0\0\x6e\0\0\0\x02\x0c\x01\x23\0\0\0\x6c\x4f\0\0\x05brown\x04\0\0\0\0\x02\0\0\0\0\0\0\0\x89\x13\0\0\0\0\0\0\x70\x64\x08\0\0";

// The stamp of a clerk.
fn brown() -> Result<Stamp, Fail> {
    Ok(Stamp {
        day: Day(20_332),
        clerk: ClerkName::new(b"brown").ok_or("a clerk")?,
    })
}

// Filings under the plain stamp, and under that of a clerk. One that is filed again under another stamp keeps its first.
#[test]
fn stamps_are_kept(rt: HostRuntime) -> Result<(), Fail> {
    let brown = brown()?;
    let mut office = new_office(rt.alloc())?;
    submit(&mut office, operation(&rt, SCHOOL));
    submit(&mut office, ask_under(&rt, brown, SECOND));
    let again = submit(&mut office, ask_under(&rt, brown, SCHOOL));
    assert!(rt; again == SCHOOL_AGAIN);
    let left = disk_of(office);
    assert_eq!(rt; left.image(), BY_BROWN.as_slice());
    assert_stamps(&rt, &office_of(rt.alloc(), left.image())?, brown);
    Ok(())
}

// Two filings stand, the first under the plain stamp and the second under this one.
fn assert_stamps(rt: &impl Abort, office: &Office<MemoryDisk>, second: Stamp) {
    let stamps = [
        (0, None),
        (1, Some(Stamp::plain())),
        (2, Some(second)),
        (3, None),
    ];
    for (position, stamp) in stamps {
        assert_eq!(rt; stamp_at(office, position), stamp);
    }
}

// A file of the version 1 is told apart, and no office is founded on it.
#[test]
fn an_old_version(rt: HostRuntime) -> Result<(), Fail> {
    let error = opened(rt.alloc(), disk(rt.alloc(), OLD, &[], None)?).err();
    assert_eq!(rt; error, Some(OpenError::OldVersion));
    let fault = founded(rt.alloc(), disk(rt.alloc(), OLD, &[], None)?).err();
    assert_eq!(rt; fault, Some(FoundFault::Exists));
    Ok(())
}
