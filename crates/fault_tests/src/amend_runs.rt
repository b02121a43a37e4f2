// One amendment over files in memory.
use crate::upgrade_runs::{File, disk};
use aid_stamps::{ClerkName, Stamp};
use aid_types::Day;
use io_memory::{DiskStop, MemoryDisk, MemorySink, MemorySource};
use run_builds::{AmendRequest, amend};
use std::alloc::Global;
use std::test::Fail;

/// What an amendment left.
#[derive(Drop)]
pub(crate) struct Left {
    pub(crate) status: u8,
    pub(crate) out: MemorySink,
    pub(crate) source: MemoryDisk,
    pub(crate) target: MemoryDisk,
}

/// An amendment of one file into another by an input, the writes with these numbers failing.
pub(crate) fn amended(
    alloc: Global,
    source: File<'_>,
    target: File<'_>,
    input: File<'_>,
    failing: &[u64],
) -> Result<Left, Fail> {
    let target = disk(alloc, target, None)?;
    run(alloc, source, target, input, failing)
}

/// An amendment of a file into a new one, whose disk stops so.
pub(crate) fn amended_until(
    alloc: Global,
    source: File<'_>,
    input: File<'_>,
    stop: DiskStop,
) -> Result<Left, Fail> {
    let target = disk(alloc, (b"", &[]), Some(stop))?;
    run(alloc, source, target, input, &[])
}

// An amendment by brown on 2025-09-01, whose records begin at 900.
fn run(
    alloc: Global,
    source: File<'_>,
    target: MemoryDisk,
    input: File<'_>,
    failing: &[u64],
) -> Result<Left, Fail> {
    let (rows, unread) = input;
    let source = disk(alloc, source, None)?;
    let mut input = MemorySource::new(rows.to_vec(alloc)?, unread.to_vec(alloc)?);
    let mut out = MemorySink::new(alloc, failing.to_vec(alloc)?);
    let request = AmendRequest {
        stamp: Stamp {
            day: Day(20_332),
            clerk: ClerkName::new(b"brown").ok_or("a clerk")?,
        },
        number: 900,
    };
    let (status, source, target) = amend(alloc, request, source, target, &mut input, &mut out);
    Ok(Left {
        status,
        out,
        source,
        target,
    })
}
