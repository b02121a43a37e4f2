// Runs of the loan desk over a file in memory.
use io_memory::{MemoryDisk, MemorySink, SteadySource};
use loans::Loans;
use run_rules::run_ruled;
use std::alloc::Global;
use std::process::Abort;
use std::test::Fail;

/// The limits of a year.
pub(crate) const LIMITS: &[u8] =
    b"limits,0,1,2025,3500,4500,5500,0,5500,6500,7500,9500,10500,12500,20500,23000,65500,31000,57500,138500\n";

/// A run of one word over a disk and an input: it ends with this status and this text.
pub(crate) fn ran(
    rt: &impl Abort,
    alloc: Global,
    disk: MemoryDisk,
    word: &str,
    rows: &[u8],
    ends: (u8, &[u8]),
) -> Result<MemoryDisk, Fail> {
    let mut words = Vec::new(alloc);
    words.push(String::from_str(alloc, word)?)?;
    let mut source = SteadySource::new(rows.to_vec(alloc)?);
    let mut sink = MemorySink::new(alloc, Vec::new(alloc));
    let (status, after) = run_ruled::<MemoryDisk, SteadySource, MemorySink, Loans>(
        alloc,
        &words,
        disk,
        &mut source,
        &mut sink,
    );
    assert_eq!(rt; status, ends.0);
    assert_eq!(rt; sink.text(), ends.1);
    Ok(after)
}

/// A disk of these bytes, of which these calls fail.
pub(crate) fn disk(alloc: Global, bytes: &[u8], failing: &[u64]) -> Result<MemoryDisk, Fail> {
    let disk = MemoryDisk::new(alloc, bytes.to_vec(alloc)?, failing.to_vec(alloc)?, None)?;
    Ok(disk)
}

/// The disk of a loan office with the limits of a year, and a student of the first year who needs 3,000 dollars.
pub(crate) fn office(rt: &impl Abort, alloc: Global) -> Result<MemoryDisk, Fail> {
    let founded = ran(
        rt,
        alloc,
        disk(alloc, &[], &[])?,
        "found",
        b"",
        (0, b"founded\n"),
    )?;
    let limited = ran(
        rt,
        alloc,
        founded,
        "file",
        LIMITS,
        (0, b"1 0 accepted 1 noted\n"),
    )?;
    ran(
        rt,
        alloc,
        limited,
        "file",
        b"borrower,110,1,5001,2025,1,1,0,3000,24000\n",
        (0, b"1 1 accepted 2 noted\n"),
    )
}
