// Commands on the rows of a first day, on files and texts that are none, and what each fault leaves.
use crate::runs::{assert_run, assert_runs};
use io_memory::MemorySource;
use log_session::INPUT_LIMIT;
use specimen::BOOK_TEXT;
use std::test::Fail;
use whole_runs::{BOTH, CUT, EMPTY, OLD, Run, disk, long_input, ran, ran_over};

const FIRST: &str = "school,0,1,110,2,12\nprior,0,2,5001,550000\n";

const ACCEPTED: &str = "1 0 accepted 1 noted\n2 1 accepted 2 noted\n";

const AGAIN: &str = "1 2 again 1 noted\n2 2 again 2 noted\n";

// The file of the two first filings with two bytes behind it, as a stop may leave them.
const TORN: &[u8] =
    b"\x01AIDPELL1\x02\0\0\0\0\0\0\x01\x18\0\0\0\0\0\0\0\0\x02\0\0\0\0\x01\0\0\0\0\0\0\0\x6e\0\0\0\x02\x0c\x01\x1e\0\0\0\0\0\0\0\0\x04\0\0\0\0\x02\0\0\0\0\0\0\0\x89\x13\0\0\0\0\0\0\x70\x64\x08\0\0\x01\x05";

#[test]
fn a_first_day(rt: HostRuntime) -> Result<(), Fail> {
    let alloc = rt.alloc();
    let founded = assert_runs(&rt, alloc, b"", &[("found", "", 0, "founded\n")])?;
    assert_eq!(rt; founded.image(), EMPTY);
    let filed = assert_runs(&rt, alloc, EMPTY, &FIRST_DAY)?;
    assert_eq!(rt; filed.image(), BOTH);
    assert_runs(&rt, alloc, EMPTY, &SEVEN_ROWS)?;
    Ok(())
}

// What a clerk files on a day stands under both, and what is filed again keeps its first stamp.
#[test]
fn a_clerk_files(rt: HostRuntime) -> Result<(), Fail> {
    let alloc = rt.alloc();
    let filed = assert_runs(&rt, alloc, EMPTY, &BY_BROWN)?;
    assert_eq!(rt; filed.image(), BROWN_FILE);
    assert_runs(&rt, alloc, BOTH, &PLAIN)?;
    Ok(())
}

// The file of the two first filings under a clerk's stamp.
const BROWN_FILE: &[u8] =
    b"\x01AIDPELL1\x02\0\0\0\0\0\0\x01\x1d\0\0\0\x6c\x4f\0\0\x05brown\x02\0\0\0\0\x01\0\0\0\0\0\0\0\x6e\0\0\0\x02\x0c\x01\x23\0\0\0\x6c\x4f\0\0\x05brown\x04\0\0\0\0\x02\0\0\0\0\0\0\0\x89\x13\0\0\0\0\0\0\x70\x64\x08\0\0";

const BY_BROWN: [Run; 8] = [
    ("at 2025-09-01 brown file", FIRST, 0, ACCEPTED),
    (
        "report stamps",
        "",
        0,
        "1 2025-09-01 brown\n2 2025-09-01 brown\nrows 2\n",
    ),
    ("at 2025-09-02 smith file", FIRST, 0, AGAIN),
    (
        "at 2025-09-02 smith report stamps",
        "",
        0,
        "1 2025-09-01 brown\n2 2025-09-01 brown\nrows 2\n",
    ),
    ("at 2025-02-30 brown file", FIRST, 2, "fault usage\n"),
    ("at 2025-09-01 -brown file", FIRST, 2, "fault usage\n"),
    (
        "at 2025-09-01 a.name_of-32.bytes.is.as.long.x1 report lifetime",
        "",
        0,
        "        5001  550000  550000\nrows 1\n",
    ),
    (
        "at 2025-09-01 a.name_of-33.bytes.is.one.more.xx report lifetime",
        "",
        2,
        "fault usage\n",
    ),
];

const PLAIN: [Run; 2] = [
    (
        "report stamps",
        "",
        0,
        "1 1970-01-01 \n2 1970-01-01 \nrows 2\n",
    ),
    (
        "report export 2025",
        "",
        0,
        "filing 0000000000020000000001000000000000006e000000020c\nfiling 000000000004000000000200000000000000891300000000000070640800\nend 2 0 ec765fc42c9890765b6b2bb8b1fe970e266042a211252bd654b8df3e39259f11\n",
    ),
];

// Only the first of these changes the file.
const FIRST_DAY: [Run; 18] = [
    ("file", FIRST, 0, ACCEPTED),
    ("file", "", 0, ""),
    ("file", FIRST, 0, AGAIN),
    ("file", "prior,0,2,5001,540000", 0, "1 2 refused 15 2 2\n"),
    ("file", "prior,0,x,5001,1", 0, "1 error 3 3\n"),
    ("file", "loan,0,9", 0, "1 error 1 1\n"),
    ("book 1", "", 0, "1 book 2 1\n"),
    ("generate 7 1", "", 0, "1 book 2 1\n"),
    ("generate 7 0", "", 2, "fault usage\n"),
    ("fund 110 2025 1 600 level 50", "", 0, "left 600\n"),
    ("fund 110 2025 1 600 level 0", "", 2, "fault usage\n"),
    ("quote", "", 2, "fault usage\n"),
    ("quote 110 5001 2025 1", "", 0, "quote 0\n"),
    ("report standing 2025", "", 0, "rows 0\n"),
    (
        "report lifetime",
        "",
        0,
        "        5001  550000  550000\nrows 1\n",
    ),
    ("report lifetime 2025", "", 2, "fault usage\n"),
    ("check rows", CHECKED, 0, CHECKS),
    ("found", "", 6, "fault office exists\n"),
];

// Each row breaks a rule of its own once the two first stand, but for the last, which is the first again.
const SEVEN_ROWS: [Run; 1] = [(
    "file",
    "\
school,0,1,110,2,12\n\
prior,0,2,5001,550000\n\
school,0,4,110,3,24\n\
prior,0,5,5001,1\n\
prior,0,6,5002,600001\n\
prior,110,1,5002,1\n\
school,0,1,110,2,12\n",
    0,
    "\
1 0 accepted 1 noted\n\
2 1 accepted 2 noted\n\
3 2 refused 13 1 110\n\
4 2 refused 80 2 5001\n\
5 2 refused 81 600001 600000\n\
6 2 refused 14 110 0\n\
7 2 again 1 noted\n",
)];

const CHECKED: &str = "\
pay,110,6,5001,2025,1,pell,1145\n\
calendar,110,1,2025,1,0,2025-02-30,2025-12-12,0\n\
calendar,110,1,2025,1,0,2025-08-25,2025-12-12,1\n\
school,0,1,110,4,12\n\
prior,0,02,5001,1\n\
prior,0,2,5001,1\n";

const CHECKS: &str = "\
1 error 8 3\n\
2 error 7 4\n\
3 error 0 2\n\
4 error 5 4\n\
5 error 3 3\n\
6 fine\n\
rows 6 errors 5\n";

#[test]
fn files_that_are_none(rt: HostRuntime) -> Result<(), Fail> {
    let alloc = rt.alloc();
    for (image, run) in NO_OFFICES {
        let after = assert_runs(&rt, alloc, image, &[run])?;
        assert_eq!(rt; after.image(), image);
    }
    Ok(())
}

// Files in which no office stands, or on which a run does nothing.
const NO_OFFICES: [(&[u8], Run); 13] = [
    (b"", ("file", FIRST, 6, "fault no office\n")),
    (b"", ("check rows", "", 0, "rows 0 errors 0\n")),
    (b"", ("check book", BOOK_TEXT, 0, "1 fine\n")),
    (
        b"ten bytes.",
        ("report lifetime", "", 6, "fault no office\n"),
    ),
    (b"ten bytes.", ("file", "", 6, "fault no office\n")),
    (
        b"eighteen letters..",
        ("file", "", 6, "fault not a journal\n"),
    ),
    (CUT, ("file", "", 7, "fault damaged 45\n")),
    (TWICE, ("file", "", 7, "fault damaged 45\n")),
    (UNKNOWN, ("file", "", 7, "fault damaged 45\n")),
    (BOTH, ("found", "", 6, "fault office exists\n")),
    (OLD, ("file", FIRST, 6, "fault old version\n")),
    (OLD, ("report lifetime", "", 6, "fault old version\n")),
    (OLD, ("found", "", 6, "fault office exists\n")),
];

// The first filing once more in the place of the second, and a second filing of a kind that is none.
const TWICE: &[u8] =
    b"\x01AIDPELL1\x02\0\0\0\0\0\0\x01\x18\0\0\0\0\0\0\0\0\x02\0\0\0\0\x01\0\0\0\0\0\0\0\x6e\0\0\0\x02\x0c\x01\x18\0\0\0\0\0\0\0\0\x02\0\0\0\0\x01\0\0\0\0\0\0\0\x6e\0\0\0\x02\x0c\0";

const UNKNOWN: &[u8] =
    b"\x01AIDPELL1\x02\0\0\0\0\0\0\x01\x18\0\0\0\0\0\0\0\0\x02\0\0\0\0\x01\0\0\0\0\0\0\0\x6e\0\0\0\x02\x0c\x01\x1e\0\0\0\0\0\0\0\0\x63\0\0\0\0\x02\0\0\0\0\0\0\0\x89\x13\0\0\0\0\0\0\x70\x64\x08\0\0";

#[test]
fn books_that_are_none(rt: HostRuntime) -> Result<(), Fail> {
    let alloc = rt.alloc();
    for (old, new, line) in NO_BOOKS {
        let text = BOOK_TEXT.replace(alloc, old, new)?;
        for words in ["book 1", "check book", "generate 7 20"] {
            let disk = disk(alloc, EMPTY, &[], None)?;
            let after = assert_run(&rt, alloc, disk, &[], (words, text.as_str(), 0, line))?;
            assert_eq!(rt; after.image(), EMPTY);
        }
    }
    Ok(())
}

// What changes in the text of the book, and the line of its first error.
const NO_BOOKS: [(&str, &str, &str); 5] = [
    (
        "minimum = 740\n",
        "minimum = 740\nbonus = 1\n",
        "1 book 6 pell.bonus\n",
    ),
    ("minimum = 740\n", "minimum = 7396\n", "1 book 4 4\n"),
    ("base = 11240\n", "base = 11241\n", "1 book 5 3 5\n"),
    ("minimum = 740\n", "bonus = 1\n", "1 book 2 4\n"),
    ("form = 1\n", "form = 2\n", "1 book 2 56\n"),
];

// A run that ended in a fault of the disk is made again, and then all stands.
#[test]
fn disk_faults_end_a_run(rt: HostRuntime) -> Result<(), Fail> {
    let alloc = rt.alloc();
    for (image, input, call, text, again, size) in DISK_FAULTS {
        let failing = disk(alloc, image, &[call], None)?;
        let left = assert_run(&rt, alloc, failing, &[], ("file", input, 5, text))?;
        let after = assert_runs(&rt, alloc, left.image(), &[("file", input, 0, again)])?;
        assert!(rt; after.image().starts_with(&BOTH[..80]), "call {call}");
        assert_eq!(rt; after.image().len(), size, "call {call}");
    }
    Ok(())
}

const TWO: &str = "prior,0,7,5007,1\nprior,0,8,5008,1\n";

// An image, its rows, the call that fails, the text, that of the run after it, and the length of its file. Two calls read what stands, one asks for the
// length, one cuts off what stands behind it, and one syncs; the first filing is put by two calls, three more write the second
// ahead, open the first's gate and keep both, and two open the second's.
const DISK_FAULTS: [(&[u8], &str, u64, &str, &str, usize); 5] = [
    (TORN, "", 4, "fault disk none\n", "", 81),
    (
        BOTH,
        TWO,
        7,
        "fault disk none\n",
        "1 2 accepted 3 noted\n2 3 accepted 4 noted\n",
        151,
    ),
    (
        BOTH,
        TWO,
        8,
        "fault disk 3\n",
        "1 2 accepted 3 noted\n2 3 accepted 4 noted\n",
        151,
    ),
    (
        BOTH,
        TWO,
        9,
        "fault disk 3\n",
        "1 3 again 3 noted\n2 3 accepted 4 noted\n",
        151,
    ),
    (
        BOTH,
        TWO,
        10,
        "1 2 accepted 3 noted\nfault disk 4\n",
        "1 3 again 3 noted\n2 3 accepted 4 noted\n",
        151,
    ),
];

#[test]
fn write_faults_end_a_run(rt: HostRuntime) -> Result<(), Fail> {
    let alloc = rt.alloc();
    for (line, image, call, text, size) in WRITE_FAULTS {
        let disk = disk(alloc, image, &[], None)?;
        let after = assert_run(&rt, alloc, disk, &[call], (line, FIRST, 4, text))?;
        assert_eq!(rt; after.image().len(), size, "{line} {call}");
    }
    Ok(())
}

// The words of a run on the first rows, an image, the call of the sink that fails, the text, and the length of the file.
const WRITE_FAULTS: [(&str, &[u8], u64, &str, usize); 8] = [
    ("check rows", EMPTY, 3, "1 fine\n2 fine\n", 17),
    ("check book", EMPTY, 1, "", 17),
    ("generate 7 1", EMPTY, 1, "", 17),
    ("fund 110 2025 1 600 level 50", EMPTY, 1, "", 17),
    ("file", EMPTY, 1, "", 81),
    ("file", EMPTY, 2, "1 0 accepted 1 noted\n", 81),
    ("found", b"", 1, "", 17),
    ("none", b"", 1, "", 0),
];

// The input is read by two calls, the last of which finds its end.
#[test]
fn read_faults_end_a_run(rt: HostRuntime) -> Result<(), Fail> {
    let alloc = rt.alloc();
    for call in [1, 2] {
        let mut source = MemorySource::new(FIRST.as_bytes().to_vec(alloc)?, vec![in alloc; call]?);
        let disk = disk(alloc, EMPTY, &[], None)?;
        let (status, sink, after) = ran_over(alloc, "file", &mut source, disk, &[])?;
        assert_eq!(rt; status, 3, "{call}");
        assert_eq!(rt; sink.text(), b"fault read\n".as_slice(), "{call}");
        assert_eq!(rt; after.image(), EMPTY, "{call}");
    }
    Ok(())
}

// One byte past the limit is too long.
#[test]
fn inputs_have_a_limit(rt: HostRuntime) -> Result<(), Fail> {
    let alloc = rt.alloc();
    for (length, want, text) in LENGTHS {
        let input = long_input(alloc, length)?;
        let disk = disk(alloc, EMPTY, &[], None)?;
        let (status, sink, after) = ran(alloc, "file", &input, disk, &[])?;
        assert_eq!(rt; status, want, "{length}");
        assert_eq!(rt; sink.text(), text.as_bytes(), "{length}");
        assert_eq!(rt; after.image(), EMPTY, "{length}");
    }
    Ok(())
}

// How long an input is, the status, and the text.
const LENGTHS: [(usize, u8, &str); 2] = [
    (INPUT_LIMIT, 0, "1 error 1 1\n"),
    (INPUT_LIMIT + 1, 8, "fault too long\n"),
];
