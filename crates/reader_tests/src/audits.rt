// Texts, and what they are found to be, by a plain list and by the office's index: both answer alike. The first bad line is told, with
// the first cause that applies to it.
use audit::run_audit;
use io_memory::{MemorySink, MemorySource};
use std::alloc::Global;
use std::process::Abort;
use std::test::Fail;
use whole_runs::words_of;

// School 110, with the key 0 1, two main terms and 12 full-time credits, under the stamp of nobody.
const SCHOOL: &str = "filing 0000000000020000000001000000000000006e000000020c\n";
// 550,000 units of student 5001 before this office, with the key 0 2; and the same under the stamp 2025-09-01 brown.
const PRIOR: &str = "filing 000000000004000000000200000000000000891300000000000070640800\n";

const OF_BROWN: &str =
    "filing 6c4f00000562726f776e04000000000200000000000000891300000000000070640800\n";
// The same school under another key, which breaks rule 13.
const SCHOOL_AGAIN: &str = "filing 0000000000020000000003000000000000006e000000020c\n";
// Units of student 5002, with the school's key.
const KEY_AGAIN: &str = "filing 0000000000040000000001000000000000008a1300000000000001000000\n";
// A school with no main terms, which is no filing.
const NO_TERMS: &str = "filing 0000000000020000000004000000000000006f000000000c\n";
// A school's code alone.
const CUT: &str = "filing 000000000002\n";

const FIRST: &str = "standing 5001 2025 0 A 0 nothing 0 0.00 550000\n";

const SECOND: &str = "standing 5002 2025 0 A 0 nothing 0 0.00 0\n";

const FIRST_WITHOUT: &str = "standing 5001 2025 0 A 0 nothing 0 0.00 0\n";

// The seals are those of Python's hashlib over these bytes: of the school and the prior use, of the school alone, and of nothing.
const END: &str = "end 2 2 ec765fc42c9890765b6b2bb8b1fe970e266042a211252bd654b8df3e39259f11\n";

const YES: &str = "yes 2 2 ec765fc42c9890765b6b2bb8b1fe970e266042a211252bd654b8df3e39259f11\n";

const OF_TWO: &str = "2 ec765fc42c9890765b6b2bb8b1fe970e266042a211252bd654b8df3e39259f11";

const OF_ONE: &str = "1 63a1680d12030e25f33f38cee293f43496c12a3aa97306e7acec0a098d8017fc";

const OF_NONE: &str = "0 092a3fdaeae11550f37fdfa66bd29ffd4929e9e0bd89325534e400ffeb7ac1c0";

// By these words the answer to a text is this line.
fn answered(
    rt: &impl Abort,
    alloc: Global,
    line: &str,
    lines: &[&str],
    answer: &str,
) -> Result<(), Fail> {
    let mut text = Vec::new(alloc);
    for part in lines {
        text.extend_from_slice(part.as_bytes())?;
    }
    let words = words_of(alloc, line)?;
    let mut source = MemorySource::new(text, Vec::new(alloc));
    let mut sink = MemorySink::new(alloc, Vec::new(alloc));
    let status = run_audit(alloc, &words, &mut source, &mut sink);
    assert_eq!(rt; sink.text(), answer.as_bytes(), "{line}");
    assert_eq!(rt; status, 0);
    Ok(())
}

// With the index and without it.
fn found(rt: &impl Abort, alloc: Global, answer: &str, lines: &[&str]) -> Result<(), Fail> {
    answered(rt, alloc, "audit", lines, answer)?;
    answered(rt, alloc, "audit whole", lines, answer)
}

// The same of a text that is held against a note.
fn noted(
    rt: &impl Abort,
    alloc: Global,
    note: &str,
    answer: &str,
    lines: &[&str],
) -> Result<(), Fail> {
    for front in ["audit ", "audit whole "] {
        let mut line = String::from_str(alloc, front)?;
        line.push_str(note)?;
        answered(rt, alloc, line.as_str(), lines, answer)?;
    }
    Ok(())
}

// Exports, and an export of nothing. The seal tells order and stamps apart.
#[test]
fn good_texts(rt: HostRuntime) -> Result<(), Fail> {
    let alloc = rt.alloc();
    found(&rt, alloc, YES, &[SCHOOL, PRIOR, FIRST, SECOND, END])?;
    found(
        &rt,
        alloc,
        "yes 2 1 c58f60481b48a2610024df58257ebf18c1371643ebc4e8bb2c6db72b59197a6f\n",
        &[
            PRIOR,
            SCHOOL,
            FIRST,
            "end 2 1 c58f60481b48a2610024df58257ebf18c1371643ebc4e8bb2c6db72b59197a6f\n",
        ],
    )?;
    found(
        &rt,
        alloc,
        "yes 2 0 c9b5daecb19c7c2778c0907a55727783854f15922232ad2d77db545eac1f2de2\n",
        &[
            SCHOOL,
            OF_BROWN,
            "end 2 0 c9b5daecb19c7c2778c0907a55727783854f15922232ad2d77db545eac1f2de2\n",
        ],
    )?;
    found(
        &rt,
        alloc,
        "yes 1 1 63a1680d12030e25f33f38cee293f43496c12a3aa97306e7acec0a098d8017fc\n",
        &[
            SCHOOL,
            FIRST_WITHOUT,
            "end 1 1 63a1680d12030e25f33f38cee293f43496c12a3aa97306e7acec0a098d8017fc\n",
        ],
    )?;
    found(
        &rt,
        alloc,
        "yes 0 0 092a3fdaeae11550f37fdfa66bd29ffd4929e9e0bd89325534e400ffeb7ac1c0\n",
        &["end 0 0 092a3fdaeae11550f37fdfa66bd29ffd4929e9e0bd89325534e400ffeb7ac1c0\n"],
    )
}

// Cause 1: no form, or out of order.
#[test]
fn stray_lines(rt: HostRuntime) -> Result<(), Fail> {
    let alloc = rt.alloc();
    found(&rt, alloc, "no 2 1\n", &[SCHOOL, "\n", PRIOR, END])?;
    for line in [
        "hello\n",
        // Capitals, an odd digit, a blank too many.
        "filing 0000000000020000000001000000000000006E000000020c\n",
        "filing 0000000000020000000001000000000000006e000000020\n",
        "filing  0000000000020000000001000000000000006e000000020c\n",
        // A year and a student that are none.
        "standing 5001 1999 0 A 0 nothing 0 0.00 0\n",
        "standing 0 2025 0 A 0 nothing 0 0.00 0\n",
        // An end line without a seal, as an older export has it, or with one that is none.
        "end 0 0\n",
        "end 0 0 092a3fda\n",
        "end 0 0 092a3fdaeae11550f37fdfa66bd29ffd4929e9e0bd89325534e400ffeb7ac1c00\n",
        "end 0 0 092A3FDAEAE11550F37FDFA66BD29FFD4929E9E0BD89325534E400FFEB7AC1C0\n",
        "end 0 0 092a3fdaeae11550f37fdfa66bd29ffd4929e9e0bd89325534e400ffeb7ac1cg\n",
    ] {
        found(&rt, alloc, "no 1 1\n", &[line])?;
    }
    // No line feed behind the last line.
    found(
        &rt,
        alloc,
        "no 5 1\n",
        &[
            SCHOOL,
            PRIOR,
            FIRST,
            SECOND,
            "end 2 2 ec765fc42c9890765b6b2bb8b1fe970e266042a211252bd654b8df3e39259f11",
        ],
    )?;
    // A line behind the last one, and a filing behind a standing.
    found(
        &rt,
        alloc,
        "no 6 1\n",
        &[SCHOOL, PRIOR, FIRST, SECOND, END, END],
    )?;
    found(
        &rt,
        alloc,
        "no 6 1\n",
        &[SCHOOL, PRIOR, FIRST, SECOND, END, "\n"],
    )?;
    found(&rt, alloc, "no 3 1\n", &[SCHOOL, FIRST_WITHOUT, PRIOR, END])
}

// Causes 2 to 4: what isn't spelled, a used key, a broken rule.
#[test]
fn bad_filings(rt: HostRuntime) -> Result<(), Fail> {
    let alloc = rt.alloc();
    found(&rt, alloc, "no 2 2\n", &[SCHOOL, NO_TERMS, PRIOR, END])?;
    for line in [
        CUT,
        "filing \n",
        // A filing without a stamp, as an older export has it, and a stamp without a filing.
        "filing 020000000001000000000000006e000000020c\n",
        "filing 0000000000\n",
        // Days that are none, 10000-01-01 and 1899-12-31, and names that are none: `-brown`, and one of fewer bytes than it says.
        "filing a1c02c0000020000000001000000000000006e000000020c\n",
        "filing 209cffff00020000000001000000000000006e000000020c\n",
        "filing 00000000062d62726f776e020000000001000000000000006e000000020c\n",
        "filing 00000000ff020000000001000000000000006e000000020c\n",
    ] {
        found(&rt, alloc, "no 1 2\n", &[line])?;
    }
    found(&rt, alloc, "no 2 3\n", &[SCHOOL, KEY_AGAIN, END])?;
    found(&rt, alloc, "no 3 3\n", &[SCHOOL, PRIOR, SCHOOL, END])?;
    // A filing twice, under another stamp.
    found(&rt, alloc, "no 3 3\n", &[SCHOOL, PRIOR, OF_BROWN, END])?;
    found(&rt, alloc, "no 2 4\n", &[SCHOOL, SCHOOL_AGAIN, END])?;
    // The first bad line is told, whatever is wrong with those behind it.
    found(
        &rt,
        alloc,
        "no 2 4\n",
        &[SCHOOL, SCHOOL_AGAIN, KEY_AGAIN, CUT, "\n"],
    )?;
    found(&rt, alloc, "no 2 3\n", &[SCHOOL, KEY_AGAIN, CUT, "\n"])?;
    found(&rt, alloc, "no 2 2\n", &[SCHOOL, CUT, "\n", SCHOOL_AGAIN])?;
    found(&rt, alloc, "no 2 1\n", &[SCHOOL, "\n", CUT, SCHOOL_AGAIN])
}

// Causes 5 to 7: a standing that isn't so or whose student doesn't rise, wrong counts or another seal, no last line.
#[test]
fn bad_ends(rt: HostRuntime) -> Result<(), Fail> {
    let alloc = rt.alloc();
    found(&rt, alloc, "no 3 5\n", &[SCHOOL, PRIOR, FIRST_WITHOUT, END])?;
    found(&rt, alloc, "no 4 5\n", &[SCHOOL, PRIOR, SECOND, FIRST, END])?;
    found(&rt, alloc, "no 4 5\n", &[SCHOOL, PRIOR, FIRST, FIRST, END])?;
    found(&rt, alloc, "no 4 6\n", &[SCHOOL, PRIOR, FIRST, END])?;
    for end in [
        "end 2 3 ec765fc42c9890765b6b2bb8b1fe970e266042a211252bd654b8df3e39259f11\n",
        "end 3 2 ec765fc42c9890765b6b2bb8b1fe970e266042a211252bd654b8df3e39259f11\n",
        // The seal of the first of them alone, one of another stamp, and one of which the last digit is another.
        "end 2 2 63a1680d12030e25f33f38cee293f43496c12a3aa97306e7acec0a098d8017fc\n",
        "end 2 2 c9b5daecb19c7c2778c0907a55727783854f15922232ad2d77db545eac1f2de2\n",
        "end 2 2 ec765fc42c9890765b6b2bb8b1fe970e266042a211252bd654b8df3e39259f10\n",
    ] {
        found(&rt, alloc, "no 5 6\n", &[SCHOOL, PRIOR, FIRST, SECOND, end])?;
    }
    // The same filings under another stamp have another seal.
    found(
        &rt,
        alloc,
        "no 5 6\n",
        &[SCHOOL, OF_BROWN, FIRST, SECOND, END],
    )?;
    found(&rt, alloc, "no 5 7\n", &[SCHOOL, PRIOR, FIRST, SECOND])?;
    found(&rt, alloc, "no 3 7\n", &[SCHOOL, PRIOR])?;
    // The empty text ends at its first line.
    found(&rt, alloc, "no 1 7\n", &[])?;
    found(&rt, alloc, "no 1 7\n", &[""])?;
    // The first bad line is told, whatever is wrong with those behind it.
    found(
        &rt,
        alloc,
        "no 4 6\n",
        &[SCHOOL, PRIOR, FIRST, END, FIRST_WITHOUT, CUT],
    )?;
    found(
        &rt,
        alloc,
        "no 3 5\n",
        &[SCHOOL, PRIOR, FIRST_WITHOUT, SCHOOL_AGAIN, "\n"],
    )
}

// Causes 9 and 10: the first filings have another seal than was noted, or are fewer. What is bad without a note is so with any.
#[test]
fn texts_under_a_note(rt: HostRuntime) -> Result<(), Fail> {
    let alloc = rt.alloc();
    let good = [SCHOOL, PRIOR, FIRST, SECOND, END];
    for note in [OF_NONE, OF_ONE, OF_TWO] {
        noted(&rt, alloc, note, YES, &good)?;
        noted(
            &rt,
            alloc,
            note,
            "no 5 7\n",
            &[SCHOOL, PRIOR, FIRST, SECOND],
        )?;
        noted(&rt, alloc, note, "no 2 4\n", &[SCHOOL, SCHOOL_AGAIN, END])?;
    }
    for note in [
        "2 63a1680d12030e25f33f38cee293f43496c12a3aa97306e7acec0a098d8017fc",
        "1 ec765fc42c9890765b6b2bb8b1fe970e266042a211252bd654b8df3e39259f11",
        "0 ec765fc42c9890765b6b2bb8b1fe970e266042a211252bd654b8df3e39259f11",
        "2 c9b5daecb19c7c2778c0907a55727783854f15922232ad2d77db545eac1f2de2",
        // The last digit, and the first one, are others.
        "2 ec765fc42c9890765b6b2bb8b1fe970e266042a211252bd654b8df3e39259f10",
        "2 0c765fc42c9890765b6b2bb8b1fe970e266042a211252bd654b8df3e39259f11",
        "1 63a1680d12030e25f33f38cee293f43496c12a3aa97306e7acec0a098d8017f0",
    ] {
        noted(&rt, alloc, note, "no 5 9\n", &good)?;
    }
    for note in [
        "3 ec765fc42c9890765b6b2bb8b1fe970e266042a211252bd654b8df3e39259f11",
        "4294967295 ec765fc42c9890765b6b2bb8b1fe970e266042a211252bd654b8df3e39259f11",
    ] {
        noted(&rt, alloc, note, "no 5 10\n", &good)?;
        noted(
            &rt,
            alloc,
            note,
            "no 3 5\n",
            &[SCHOOL, PRIOR, FIRST_WITHOUT, END],
        )?;
    }
    noted(
        &rt,
        alloc,
        OF_ONE,
        "no 1 10\n",
        &["end 0 0 092a3fdaeae11550f37fdfa66bd29ffd4929e9e0bd89325534e400ffeb7ac1c0\n"],
    )
}
