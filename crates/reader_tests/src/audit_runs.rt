// Runs over a source and a sink in memory.
use audit::run_audit;
use io_memory::{MemorySink, MemorySource};
use std::alloc::Global;
use std::process::Abort;
use std::test::Fail;

const ROWS: &[u8] = b"pay,7395,450,900,13,26\npay,7395,450,900,12,26\npay\n";

const LINES: &[u8] = b"1 pay 3698\n2 pay 3413\n3 error 0 2\n";

// The seal of no filing.
const SEAL: &str = "092a3fdaeae11550f37fdfa66bd29ffd4929e9e0bd89325534e400ffeb7ac1c0";

// Words of an audit in which the note is none.
const NO_NOTES: [[&str; 3]; 9] = [
    ["audit", "18", ""],
    ["audit", "", SEAL],
    ["audit", "018", SEAL],
    ["audit", "-1", SEAL],
    ["audit", "4294967296", SEAL],
    ["audit", SEAL, "18"],
    ["audit", "whole", "18"],
    ["audit", "whole", "whole"],
    ["clock", "18", SEAL],
];

// A run of some words, in which one read and one write fail, or none where the number is 0: it ends with this status and text.
fn assert_run(
    rt: &impl Abort,
    alloc: Global,
    line: &[&str],
    failing: (u64, u64),
    ends: (u8, &[u8]),
) -> Result<(), Fail> {
    let mut words = Vec::new(alloc);
    for word in line {
        words.push(String::from_str(alloc, word)?)?;
    }
    let mut source = MemorySource::new(ROWS.to_vec(alloc)?, [failing.0].to_vec(alloc)?);
    let mut sink = MemorySink::new(alloc, [failing.1].to_vec(alloc)?);
    let status = run_audit(alloc, &words, &mut source, &mut sink);
    assert_eq!(rt; status, ends.0);
    assert_eq!(rt; sink.text(), ends.1);
    Ok(())
}

#[test]
fn statuses(rt: HostRuntime) -> Result<(), Fail> {
    let alloc = rt.alloc();
    assert_run(&rt, alloc, &["clock"], (0, 0), (0, LINES))?;
    assert_run(&rt, alloc, &["audit"], (0, 0), (0, b"no 1 1\n"))?;
    assert_run(&rt, alloc, &["audit", "whole"], (0, 0), (0, b"no 1 1\n"))?;
    assert_run(&rt, alloc, &["audit", "0", SEAL], (0, 0), (0, b"no 1 1\n"))?;
    assert_run(
        &rt,
        alloc,
        &["audit", "whole", "4294967295", SEAL],
        (0, 0),
        (0, b"no 1 1\n"),
    )?;
    assert_run(&rt, alloc, &[], (0, 0), (2, b"fault usage\n"))?;
    assert_run(&rt, alloc, &["clocks"], (0, 0), (2, b"fault usage\n"))?;
    assert_run(
        &rt,
        alloc,
        &["clock", "clock"],
        (0, 0),
        (2, b"fault usage\n"),
    )?;
    for words in NO_NOTES {
        assert_run(&rt, alloc, &words, (0, 0), (2, b"fault usage\n"))?;
    }
    assert_run(
        &rt,
        alloc,
        &["audit", "whole"],
        (1, 0),
        (3, b"fault read\n"),
    )?;
    assert_run(&rt, alloc, &["audit", "whole"], (0, 1), (4, b""))?;
    assert_run(&rt, alloc, &["clock"], (1, 0), (3, b"fault read\n"))?;
    assert_run(&rt, alloc, &["clock"], (2, 0), (3, b"fault read\n"))?;
    assert_run(&rt, alloc, &["clock"], (3, 0), (0, LINES))?;
    assert_run(&rt, alloc, &["clock"], (0, 1), (4, b""))?;
    assert_run(&rt, alloc, &[], (0, 1), (4, b""))?;
    assert_run(&rt, alloc, &["clock"], (1, 1), (4, b""))
}
