//! What no clause says of versions: which bytes are those of the version before, and the answers at them.
use crate::journals::{BOTH, EMPTY};
use crate::tools::{assert_same, disk};
use io_traits::Disk;
use log_journal::{FoundError, Header, OpenError, found, recover};
use std::alloc::{AllocError, Global};
use std::process::Abort;

// A header of version 2, which names version 1 as the one before.
const SECOND: Header = Header {
    name: *b"AIDPELL1",
    version: 2,
    old: Some(1),
};

// A header of version 2 that names none.
const ALONE: Header = Header {
    name: *b"AIDPELL1",
    version: 2,
    old: None,
};

// A header of version 4, which names version 1.
const FOURTH: Header = Header {
    name: *b"AIDPELL1",
    version: 4,
    old: Some(1),
};

// Why no journal with this header is opened on a disk, if none is.
fn unopened<D: Disk + Drop>(disk: D, header: Header) -> Option<OpenError> {
    match recover(disk, header) {
        Ok(_opening) => None,
        Err((error, _disk)) => Some(error),
    }
}

// Why no journal with this header is founded on a disk, if none is.
fn unfounded<D: Disk + Drop>(disk: D, header: Header) -> Option<FoundError> {
    match found(disk, header) {
        Ok(_journal) => None,
        Err((error, _disk)) => Some(error),
    }
}

// Both answers at a file of these bytes for a header.
fn assert_answers(
    rt: &impl Abort,
    alloc: Global,
    bytes: &[u8],
    header: Header,
    opened: Option<OpenError>,
    founded: Option<FoundError>,
) -> Result<(), AllocError> {
    let found = unopened(disk(alloc, bytes, &[], None)?, header);
    assert_same(rt, &"why it isn't opened", &found, &opened);
    let found = unfounded(disk(alloc, bytes, &[], None)?, header);
    assert!(rt; found == founded, "why none is founded");
    Ok(())
}
// A file, and both answers at it for version 2 with version 1 before it.
const ANSWERS: [(&[u8], Option<OpenError>, Option<FoundError>); 9] = [
    // Version 1, without payloads and with two.
    (
        &EMPTY,
        Some(OpenError::OldVersion),
        Some(FoundError::Exists),
    ),
    (&BOTH, Some(OpenError::OldVersion), Some(FoundError::Exists)),
    // Version 2.
    (
        b"\x01AIDPELL1\x02\0\0\0\0\0\0\0",
        None,
        Some(FoundError::Exists),
    ),
    // A founding of version 1 that didn't end.
    (
        b"\0AIDPELL1\x01\0\0\0\0\0\0\0",
        Some(OpenError::NoOffice),
        None,
    ),
    (
        b"\x01AIDPELL1\x01\0\0\0\0\0\0",
        Some(OpenError::NoOffice),
        None,
    ),
    // A byte more than such a founding leaves.
    (
        b"\0AIDPELL1\x01\0\0\0\0\0\0\0\0",
        Some(OpenError::NotJournal),
        Some(FoundError::NotJournal),
    ),
    // The versions 0 and 3, and another name.
    (
        b"\x01AIDPELL1\0\0\0\0\0\0\0\0",
        Some(OpenError::NotJournal),
        Some(FoundError::NotJournal),
    ),
    (
        b"\x01AIDPELL1\x03\0\0\0\0\0\0\0",
        Some(OpenError::NotJournal),
        Some(FoundError::NotJournal),
    ),
    (
        b"\x01AIDPELL2\x01\0\0\0\0\0\0\0",
        Some(OpenError::NotJournal),
        Some(FoundError::NotJournal),
    ),
];

#[test]
fn answers_by_the_version(rt: HostRuntime) -> Result<(), AllocError> {
    for (bytes, opened, founded) in ANSWERS {
        assert_answers(&rt, rt.alloc(), bytes, SECOND, opened, founded)?;
    }
    Ok(())
}

#[test]
fn tells_the_version_that_is_named_alone(rt: HostRuntime) -> Result<(), AllocError> {
    assert_alone(&rt, rt.alloc(), &EMPTY)?;
    assert_alone(&rt, rt.alloc(), &BOTH)
}

// A file of version 1 is no journal where the header doesn't name that version as the one before.
fn assert_alone(rt: &impl Abort, alloc: Global, bytes: &[u8]) -> Result<(), AllocError> {
    let none = Some(OpenError::NotJournal);
    assert_answers(rt, alloc, bytes, ALONE, none, Some(FoundError::NotJournal))?;
    let old = Some(OpenError::OldVersion);
    assert_answers(rt, alloc, bytes, FOURTH, old, Some(FoundError::Exists))
}
