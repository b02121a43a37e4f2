//! Runs of the program, each over a file in memory.
ghost use Rattle.std.specs.Prelude.{◌≡◌, IfOk};
ghost use Rattle.io_memory.specs.Memory.{memory_bytes, memory_lists};

use io_memory::{DiskStop, MemoryDisk, MemorySink, SteadySource};
use io_traits::{Disk, Source};
use law_funds::{Rule, level, quarter, standard};
use run_office::run;
use std::alloc::{AllocError, Global};

/// The words of a run and its input, and the status and the text with which it ends.
pub type Run = (&'static str, &'static str, u8, &'static str);

/// A founded file without filings.
pub const EMPTY: &[u8] = b"\x01AIDPELL1\x02\0\0\0\0\0\0\0";

/// A disk with these bytes, of which the calls with these numbers fail, counted from 1.
pub fn disk(
    alloc: Global,
    bytes: &[u8],
    failing: &[u64],
    stop: Option<DiskStop>,
) -> Result<MemoryDisk, AllocError>
    ensures bytes { IfOk result (λ disk. memory_bytes disk ≡ bytes.now) }
    ensures lists { IfOk result (λ disk. memory_lists disk ≡ (failing.now, stop)) }
{
    MemoryDisk::new(alloc, bytes.to_vec(alloc)?, failing.to_vec(alloc)?, stop)
}

/// The words of a line, between which one space stands each.
pub fn words_of(alloc: Global, line: &str) -> Result<Vec<String>, AllocError> {
    let mut words = Vec::new(alloc);
    for word in line.split(' ') {
        words.push(String::from_str(alloc, word)?)?;
    }
    Ok(words)
}

/// What a run with a line of words over a source gives, where these calls of its sink fail: the status, the sink with the
/// text, and the disk. The policies are the office's two.
pub fn ran_over<D: Disk + Drop, S: Source>(
    alloc: Global,
    line: &str,
    source: &mut S,
    disk: D,
    failing: &[u64],
) -> Result<(u8, MemorySink, D), AllocError> {
    let words = words_of(alloc, line)?;
    let level_rule: Rule = Box::new(
        alloc,
        |need: u32, sai: i32, intensity: u8| level(need, sai, intensity),
    )?;
    let quarter_rule: Rule = Box::new(
        alloc,
        |need: u32, sai: i32, intensity: u8| quarter(need, sai, intensity),
    )?;
    let policies = standard(alloc, level_rule, quarter_rule)?;
    let mut sink = MemorySink::new(alloc, failing.to_vec(alloc)?);
    let (status, disk) = run(alloc, &words, disk, source, &mut sink, &policies);
    Ok((status, sink, disk))
}

/// The same over an input.
pub fn ran(
    alloc: Global,
    line: &str,
    input: &[u8],
    disk: MemoryDisk,
    failing: &[u64],
) -> Result<(u8, MemorySink, MemoryDisk), AllocError> {
    let mut source = SteadySource::new(input.to_vec(alloc)?);
    ran_over(alloc, line, &mut source, disk, failing)
}
