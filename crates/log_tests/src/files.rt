// Files of numbers in memory, and what stands in them.
use crate::rising::{AllNumbers, Rising};
use io_memory::{DiskStop, MemoryDisk, MemorySink};
use log_session::write_report;
use std::alloc::Global;
use std::process::Abort;

/// A disk with these bytes, of which these calls fail, and which stops so.
pub(crate) fn disk(
    rt: &impl Abort,
    alloc: Global,
    image: &[u8],
    failing: &[u64],
    stop: Option<DiskStop>,
) -> MemoryDisk {
    let image = copied(rt, alloc, image);
    let failing = failing.to_vec(alloc).expect(rt, "memory");
    MemoryDisk::new(alloc, image, failing, stop).expect(rt, "memory")
}

/// The same bytes in a vector.
pub(crate) fn copied(rt: &impl Abort, alloc: Global, bytes: &[u8]) -> Vec<u8> {
    bytes.to_vec(alloc).expect(rt, "memory")
}

/// The numbers that stand in a file.
pub(crate) fn numbers(rt: &impl Abort, alloc: Global, image: &[u8]) -> Vec<u8> {
    let disk = disk(rt, alloc, image, &[], None);
    let mut sink = MemorySink::new(alloc, Vec::new(alloc));
    let (ended, _disk) = write_report::<MemoryDisk, MemorySink, Rising, AllNumbers>(
        alloc,
        disk,
        &AllNumbers,
        &mut sink,
    );
    assert_eq!(rt; ended, Ok(()));
    copied(rt, alloc, sink.text())
}
