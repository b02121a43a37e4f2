// Each last line of an amendment, and what is left where an edge fails or stops in the middle.
use crate::amend_runs::{Left, amended, amended_until};
use crate::upgrade_files::{NEW, OLD};
use crate::upgrade_runs::{File, disk};
use io_memory::{DiskStop, Fill, MemoryDisk};
use log_machine::{Log, OpenError};
use office_log::StampedOfficeMachine;
use std::alloc::Global;
use std::process::Abort;
use std::test::Fail;

/// More calls than an amendment of two filings makes.
const CALLS: u64 = 60;

// The prior use that was mistyped, corrected.
const ROWS: &[u8] = b"replace,1,7,prior,0,2,5001,40000\n";

const TOLD: &[u8] = b"2 prior,0,2,5001,550000 replaced prior,0,2,5001,40000\namended 3\n";

// The file with it.
const MADE: &[u8] =
    b"\x01AIDPELL1\x02\0\0\0\0\0\0\x01\x18\0\0\0\0\0\0\0\0\x02\0\0\0\0\x01\0\0\0\0\0\0\0n\0\0\0\x02\x0c\x01#\0\0\0lO\0\0\x05brown\x04\0\0\0\0\x02\0\0\0\0\0\0\0\x89\x13\0\0\0\0\0\0@\x9c\0\0\x01-\0\0\0lO\0\0\x05brown\x0e\0\0\0\0\x84\x03\0\0\0\0\0\0\0\0\0\0\x02\0\0\0\0\0\0\0\x01\x01\x07\0\0\0\0\0\0\0\0";

/// The source, the target, the rows, the writes that fail, the status, the text, and the target's bytes behind it.
type Row = (
    File<'static>,
    File<'static>,
    File<'static>,
    &'static [u64],
    u8,
    &'static [u8],
    &'static [u8],
);

const LINES: [Row; 15] = [
    ((NEW, &[]), (b"", &[]), (ROWS, &[]), &[], 0, TOLD, MADE),
    (
        (NEW, &[]),
        (b"", &[]),
        (b"", &[]),
        &[],
        0,
        b"amended 2\n",
        NEW,
    ),
    ((NEW, &[]), (b"short", &[]), (ROWS, &[]), &[], 0, TOLD, MADE),
    ((NEW, &[]), (b"", &[]), (ROWS, &[]), &[1], 4, b"", MADE),
    (
        (NEW, &[]),
        (b"", &[]),
        (b"void,1,7,0,3\nkeep\n", &[]),
        &[],
        1,
        b"1 error 4 6\n2 error 1 1\nerrors 2\n",
        b"",
    ),
    (
        (NEW, &[]),
        (NEW, &[]),
        (b"insert,3,7,0,1,school,0,9,110,2,12\n", &[]),
        &[],
        1,
        b"1 school,0,9,110,2,12 inserted\n2 school,0,1,110,2,12 refused 13 1 110\nrefused 1\n",
        NEW,
    ),
    (
        (NEW, &[]),
        (b"", &[]),
        (ROWS, &[1]),
        &[],
        3,
        b"fault read\n",
        b"",
    ),
    (
        (NEW, &[1]),
        (b"", &[]),
        (ROWS, &[]),
        &[],
        5,
        b"fault disk source\n",
        b"",
    ),
    (
        (NEW, &[]),
        (b"", &[1]),
        (ROWS, &[]),
        &[],
        5,
        b"fault disk target\n",
        b"",
    ),
    (
        (b"", &[]),
        (b"", &[]),
        (ROWS, &[]),
        &[],
        6,
        b"fault no office\n",
        b"",
    ),
    (
        (b"eighteen letters..", &[]),
        (b"", &[]),
        (ROWS, &[]),
        &[],
        6,
        b"fault not a journal\n",
        b"",
    ),
    (
        (OLD, &[]),
        (b"", &[]),
        (ROWS, &[]),
        &[],
        6,
        b"fault old version\n",
        b"",
    ),
    (
        (NEW, &[]),
        (NEW, &[]),
        (ROWS, &[]),
        &[],
        6,
        b"fault office exists\n",
        NEW,
    ),
    (
        (NEW, &[]),
        (b"eighteen letters..", &[]),
        (ROWS, &[]),
        &[],
        6,
        b"fault target\n",
        b"eighteen letters..",
    ),
    (
        (b"\x01AIDPELL1\x02\0\0\0\0\0\0\x01\x05\0", &[]),
        (b"", &[]),
        (ROWS, &[]),
        &[],
        7,
        b"fault damaged 16\n",
        b"",
    ),
];

#[test]
fn lines_of_an_amendment(rt: HostRuntime) -> Result<(), Fail> {
    for row in LINES {
        assert_row(&rt, rt.alloc(), row)?;
    }
    Ok(())
}

fn assert_row(rt: &impl Abort, alloc: Global, row: Row) -> Result<(), Fail> {
    let (source, target, rows, failing, status, text, left) = row;
    let after = amended(alloc, source, target, rows, failing)?;
    assert_eq!(rt; after.status, status);
    assert_eq!(rt; after.out.text(), text);
    assert_eq!(rt; after.source.image(), source.0);
    assert_eq!(rt; after.target.image(), left);
    Ok(())
}

// The target stops for good at each of its calls.
#[test]
fn a_new_file_that_stops(rt: HostRuntime) -> Result<(), Fail> {
    for fill in [Fill::Unwritten, Fill::Written, Fill::With(0), Fill::With(1)] {
        assert_stops(&rt, rt.alloc(), fill)?;
    }
    Ok(())
}

// The same where what isn't synced is left so.
fn assert_stops(rt: &impl Abort, alloc: Global, fill: Fill) -> Result<(), Fail> {
    let mut stopped_at = 0;
    for call in 1..CALLS {
        let after = amended_until(alloc, (NEW, &[]), (ROWS, &[]), DiskStop { call, fill })?;
        if is_target_fault(rt, alloc, after)? {
            stopped_at = call;
        }
    }
    assert!(rt; 10 <= stopped_at && stopped_at < CALLS - 1);
    Ok(())
}

// Whether a fault of the target is said, and its file is the whole or no office. Else all is made.
fn is_target_fault(rt: &impl Abort, alloc: Global, after: Left) -> Result<bool, Fail> {
    assert_eq!(rt; after.source.image(), NEW);
    if after.status == 0 {
        assert_eq!(rt; after.target.image(), MADE);
        return Ok(false);
    }
    assert_eq!(rt; after.status, 5);
    assert_eq!(rt; after.out.text(), b"fault disk target\n".as_slice());
    assert_whole_or_none(rt, alloc, after.target)?;
    Ok(true)
}

// The file is no office's, or it is the whole.
fn assert_whole_or_none(rt: &impl Abort, alloc: Global, left: MemoryDisk) -> Result<(), Fail> {
    let again = disk(alloc, (left.image(), &[]), None)?;
    match opened(alloc, again) {
        Ok(office) => assert_eq!(rt; office.into_disk().image(), MADE),
        Err(error) => assert!(rt; matches!(error, OpenError::NoOffice | OpenError::NotJournal)),
    }
    Ok(())
}

// The office that a disk's file leaves.
fn opened(
    alloc: Global,
    disk: MemoryDisk,
) -> Result<Log<MemoryDisk, StampedOfficeMachine>, OpenError> {
    match Log::recover(alloc, disk) {
        Ok(office) => Ok(office),
        Err((error, _disk)) => Err(error),
    }
}

// Each call of the target, of the source, and of the input fails once.
#[test]
fn a_call_of_an_amendment_that_fails(rt: HostRuntime) -> Result<(), Fail> {
    let alloc = rt.alloc();
    let (mut targets, mut sources, mut inputs) = (0, 0, 0);
    for call in 1..CALLS {
        let after = amended(alloc, (NEW, &[]), (b"", &[call]), (ROWS, &[]), &[])?;
        if is_target_fault(&rt, alloc, after)? {
            targets = call;
        }
        let after = amended(alloc, (NEW, &[call]), (b"", &[]), (ROWS, &[]), &[])?;
        if is_fault(&rt, after, 5, "fault disk source\n") {
            sources = call;
        }
        let after = amended(alloc, (NEW, &[]), (b"", &[]), (ROWS, &[call]), &[])?;
        if is_fault(&rt, after, 3, "fault read\n") {
            inputs = call;
        }
    }
    assert!(rt; 10 <= targets && 2 <= sources && 1 <= inputs);
    Ok(())
}

// Whether a fault is said, and the target had no call. Else all is made.
fn is_fault(rt: &impl Abort, after: Left, status: u8, line: &str) -> bool {
    assert_eq!(rt; after.source.image(), NEW);
    if after.status == 0 {
        assert_eq!(rt; after.target.image(), MADE);
        return false;
    }
    assert_eq!(rt; after.status, status);
    assert_eq!(rt; after.out.text(), line.as_bytes());
    assert_eq!(rt; after.target.image(), b"".as_slice());
    true
}
