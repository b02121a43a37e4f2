// One upgrade over files in memory.
use io_memory::{DiskStop, MemoryDisk, MemorySink};
use run_builds::upgrade;
use std::alloc::{AllocError, Global};
use std::test::Fail;

/// A file, and the numbers of the calls that fail.
pub(crate) type File<'a> = (&'a [u8], &'a [u64]);

/// What an upgrade left.
#[derive(Drop)]
pub(crate) struct Ran {
    pub(crate) status: u8,
    pub(crate) out: MemorySink,
    pub(crate) source: MemoryDisk,
    pub(crate) target: MemoryDisk,
}

/// A disk with these bytes, which fails and stops so.
pub(crate) fn disk(
    alloc: Global,
    file: File<'_>,
    stop: Option<DiskStop>,
) -> Result<MemoryDisk, AllocError> {
    let (bytes, failing) = file;
    whole_runs::disk(alloc, bytes, failing, stop)
}

/// An upgrade of one file into another, the writes with these numbers failing.
pub(crate) fn upgraded(
    alloc: Global,
    source: File<'_>,
    target: File<'_>,
    failing: &[u64],
) -> Result<Ran, Fail> {
    let source = disk(alloc, source, None)?;
    let target = disk(alloc, target, None)?;
    run(alloc, source, target, failing)
}

/// An upgrade of a file into a new one, whose disk stops so.
pub(crate) fn stopped(alloc: Global, source: File<'_>, stop: DiskStop) -> Result<Ran, Fail> {
    let source = disk(alloc, source, None)?;
    let target = disk(alloc, (b"", &[]), Some(stop))?;
    run(alloc, source, target, &[])
}

// An upgrade over two disks, the writes with these numbers failing.
fn run(
    alloc: Global,
    source: MemoryDisk,
    target: MemoryDisk,
    failing: &[u64],
) -> Result<Ran, Fail> {
    let failing = failing.to_vec(alloc)?;
    let mut out = MemorySink::new(alloc, failing);
    let (status, source, target) = upgrade(alloc, source, target, &mut out);
    Ok(Ran {
        status,
        out,
        source,
        target,
    })
}
