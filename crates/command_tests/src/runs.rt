// Runs one after another over a file in memory.
use io_memory::MemoryDisk;
use specimen::BOOK_TEXT;
use std::alloc::Global;
use std::process::Abort;
use std::test::Fail;
use whole_runs::{EMPTY, Run, disk, ran};

// Each run goes on with the file of the one before it, and ends so.
pub(crate) fn assert_runs(
    rt: &impl Abort,
    alloc: Global,
    image: &[u8],
    runs: &[Run],
) -> Result<MemoryDisk, Fail> {
    let mut kept = disk(alloc, image, &[], None)?;
    for &run in runs {
        kept = assert_run(rt, alloc, kept, &[], run)?;
    }
    Ok(kept)
}

// A run over a disk ends so, where these writes of its text fail. Gives the disk that it leaves.
pub(crate) fn assert_run(
    rt: &impl Abort,
    alloc: Global,
    kept: MemoryDisk,
    failing: &[u64],
    run: (&str, &str, u8, &str),
) -> Result<MemoryDisk, Fail> {
    let (line, input, want, text) = run;
    let (status, sink, next) = ran(alloc, line, input.as_bytes(), kept, failing)?;
    assert_eq!(rt; sink.text(), text.as_bytes(), "{line}: {input}");
    assert_eq!(rt; status, want, "{line}");
    Ok(next)
}

// An office in which the specimen book stands.
pub(crate) fn with_book(rt: &impl Abort, alloc: Global) -> Result<MemoryDisk, Fail> {
    assert_runs(
        rt,
        alloc,
        EMPTY,
        &[("book 1", BOOK_TEXT, 0, "1 0 accepted 1 noted\n")],
    )
}
