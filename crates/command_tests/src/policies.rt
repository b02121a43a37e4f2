// Policies whose caller names them: a word that begins with a hyphen is in no row, though a policy has that name.
use aid_types::Name;
use io_memory::{MemoryDisk, MemorySink, SteadySource};
use law_funds::{Policies, Policy, Rule, level, quarter};
use run_office::run;
use std::alloc::{AllocError, Global};
use std::test::Fail;
use whole_runs::{EMPTY, disk, words_of};

// What a run with a line of words gives on a founded file, where the policies are named `-x` and `x`.
fn ran_with_hyphen(alloc: Global, line: &str) -> Result<(u8, MemorySink, MemoryDisk), AllocError> {
    let words = words_of(alloc, line)?;
    let one: Rule = Box::new(
        alloc,
        |need: u32, sai: i32, intensity: u8| level(need, sai, intensity),
    )?;
    let other: Rule = Box::new(
        alloc,
        |need: u32, sai: i32, intensity: u8| quarter(need, sai, intensity),
    )?;
    let one = Policy::new(Name::new(Vec::from_slice(alloc, b"-x")?), one);
    let other = Policy::new(Name::new(Vec::from_slice(alloc, b"x")?), other);
    let policies = Policies::new(vec![in alloc; one, other]?);
    let mut source = SteadySource::new(Vec::new(alloc));
    let mut sink = MemorySink::new(alloc, Vec::new(alloc));
    let disk = disk(alloc, EMPTY, &[], None)?;
    let (status, disk) = run(alloc, &words, disk, &mut source, &mut sink, &policies);
    Ok((status, sink, disk))
}

#[test]
fn words_with_a_hyphen(rt: HostRuntime) -> Result<(), Fail> {
    let alloc = rt.alloc();
    for (line, want, text) in ROUNDS {
        let (status, sink, after) = ran_with_hyphen(alloc, line)?;
        assert_eq!(rt; sink.text(), text.as_bytes(), "{line}");
        assert_eq!(rt; status, want, "{line}");
        assert_eq!(rt; after.image(), EMPTY, "{line}");
    }
    Ok(())
}

// The words of a round, its status and its text. There is nobody to award.
const ROUNDS: [(&str, u8, &str); 3] = [
    ("fund 110 2025 1 600 -x 50", 2, "fault usage\n"),
    ("fund 110 2025 1 600 x 50", 0, "left 600\n"),
    ("fund 110 2025 1 600 y 50", 2, "fault usage\n"),
];
