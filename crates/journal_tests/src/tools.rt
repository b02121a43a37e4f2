//! What the tests share: an assertion that is proved once for all types, a disk in memory, and how a journal is read.
use io_memory::{DiskStop, MemoryDisk};
use io_traits::{Disk, PayloadBuffer};
use log_journal::{Header, OpenError, Opening, recover};
use std::alloc::{AllocError, Global};
use std::fmt::{Debug, Display};
use std::process::Abort;

// The header of the worked files.
pub(crate) const HEADER: Header = Header {
    name: *b"AIDPELL1",
    version: 1,
    old: None,
};

// What was found is what is wanted, in the case that is named.
pub(crate) fn assert_same<C: Display, T: Debug + PartialEq>(
    rt: &impl Abort,
    case: &C,
    found: &T,
    wanted: &T,
) {
    assert_eq!(rt; *found, *wanted, "{case}");
}

// A disk in memory with these bytes. The calls with these numbers fail, and it stops so.
pub(crate) fn disk(
    alloc: Global,
    bytes: &[u8],
    failing: &[u64],
    stop: Option<DiskStop>,
) -> Result<MemoryDisk, AllocError> {
    MemoryDisk::new(alloc, bytes.to_vec(alloc)?, failing.to_vec(alloc)?, stop)
}

// Begins to read a journal.
pub(crate) fn opening<D: Disk + Drop>(disk: D) -> Result<Opening<D>, OpenError> {
    match recover(disk, HEADER) {
        Ok(opening) => Ok(opening),
        Err((error, _disk)) => Err(error),
    }
}

// How many payloads a file has, up to 9.
pub(crate) fn read<D: Disk + Drop>(disk: D, room: &mut PayloadBuffer) -> Result<u64, OpenError> {
    let mut opening = opening(disk)?;
    for n in 0..9 {
        if opening.next(room)?.is_none() {
            return Ok(n);
        }
    }
    Ok(9)
}

// That many payloads are read of these bytes, or this is answered.
pub(crate) fn assert_read<C: Display>(
    rt: &impl Abort,
    case: &C,
    alloc: Global,
    bytes: &[u8],
    room: &mut PayloadBuffer,
    wanted: Result<u64, OpenError>,
) -> Result<(), AllocError> {
    let found = read(disk(alloc, bytes, &[], None)?, room);
    assert_same(rt, case, &found, &wanted);
    Ok(())
}
