// Runs of the work-study desk over a file in memory.
use aid_types::School;
use io_memory::{MemoryDisk, MemorySink, SteadySource};
use law_funds::{Rule, level, quarter, standard};
use std::alloc::Global;
use std::process::Abort;
use std::test::Fail;
use work_rounds::run_work;
use work_study::SchoolPolicies;

// The schools that have a policy, the first by level and the other by quarter.
const SCHOOLS: [School; 2] = [School(101), School(102)];

/// A run of some words over a disk and an input: it ends with this status and this text.
pub(crate) fn ran(
    rt: &impl Abort,
    alloc: Global,
    disk: MemoryDisk,
    line: &[&str],
    rows: &[u8],
    ends: (u8, &[u8]),
) -> Result<MemoryDisk, Fail> {
    let level_rule: Rule = Box::new(
        alloc,
        |need: u32, sai: i32, intensity: u8| level(need, sai, intensity),
    )?;
    let quarter_rule: Rule = Box::new(
        alloc,
        |need: u32, sai: i32, intensity: u8| quarter(need, sai, intensity),
    )?;
    let policies = standard(alloc, level_rule, quarter_rule)?;
    let mut list = Vec::new(alloc);
    for (school, policy) in SCHOOLS.iter().zip(policies.list) {
        list.push((*school, policy))?;
    }
    let mut words = Vec::new(alloc);
    for word in line {
        words.push(String::from_str(alloc, word)?)?;
    }
    let mut source = SteadySource::new(rows.to_vec(alloc)?);
    let mut sink = MemorySink::new(alloc, Vec::new(alloc));
    let (status, after) = run_work(
        alloc,
        &words,
        disk,
        &mut source,
        &mut sink,
        &SchoolPolicies::new(list),
    );
    assert_eq!(rt; status, ends.0);
    assert_eq!(rt; sink.text(), ends.1);
    Ok(after)
}

/// The disk of a work-study office with a fund of 2,500 dollars.
pub(crate) fn office(rt: &impl Abort, alloc: Global) -> Result<MemoryDisk, Fail> {
    let disk = MemoryDisk::new(alloc, Vec::new(alloc), Vec::new(alloc), None)?;
    let founded = ran(rt, alloc, disk, &["found"], b"", (0, b"founded\n"))?;
    ran(
        rt,
        alloc,
        founded,
        &["file"],
        b"fund,101,1,2025,2500\n",
        (0, b"1 0 accepted 1 noted\n"),
    )
}
