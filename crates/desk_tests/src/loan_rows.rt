// Rows of the loan desk and the lines that answer them.
use crate::loan_runs::{LIMITS, disk, office, ran};
use std::test::Fail;

// Each of these rows behind the limits: the worked ones, those sent again, and others.
const ROWS: &[(&[u8], &[u8])] = &[
    (
        b"borrower,110,1,5001,2025,1,1,0,3000,24000\nlend,110,2,5001,2025,sub,3000.00\nlend,110,3,5001,2025,unsub,2500.00\nlend,110,4,5001,2025,unsub,0.01\n",
        b"1 1 accepted 2 noted\n2 2 accepted 3 lent 3000.00 3000.00\n3 3 accepted 4 lent 5500.00 5500.00\n4 4 refused 118 550001 550000\n",
    ),
    (
        b"before,0,2,5002,20000,29000\nborrower,110,5,5002,2025,1,3,0,5000,24000\nlend,110,6,5002,2025,unsub,2000.00\nlend,110,7,5002,2025,unsub,0.01\n",
        b"1 4 accepted 5 noted\n2 5 accepted 6 noted\n3 6 accepted 7 lent 2000.00 31000.00\n4 7 refused 120 3100001 3100000\n",
    ),
    (
        b"lend,110,2,5001,2025,sub,3000.00\nlend,110,2,5001,2025,sub,3000.01\ncancel,111,8,5001,2025,sub,3000.01\ncancel,111,8,5001,2025,sub,1000.00\nborrower,110,9,5001,2025,2,1,0,1999,24000\nlend,110,10,5001,2025,plus,1.00\nlend,110,10,5001,2025,unsub,1000.00\n",
        b"1 7 again 3 lent 3000.00 3000.00\n2 7 refused 15 3 2\n3 7 refused 122 300001 300000\n4 7 accepted 8 noted\n5 8 refused 126 200000 199900\n6 error 6 3\n7 8 accepted 9 lent 5500.00 5500.00\n",
    ),
];

#[test]
fn worked_rows(rt: HostRuntime) -> Result<(), Fail> {
    let alloc = rt.alloc();
    let founded = ran(
        &rt,
        alloc,
        disk(alloc, &[], &[])?,
        "found",
        b"",
        (0, b"founded\n"),
    )?;
    let mut kept = ran(
        &rt,
        alloc,
        founded,
        "file",
        LIMITS,
        (0, b"1 0 accepted 1 noted\n"),
    )?;
    for (rows, lines) in ROWS {
        kept = ran(&rt, alloc, kept, "file", rows, (0, lines))?;
    }
    let before: &[u8] =
        b"\x01\x1d\0\0\0\x67\0\0\0\0\x02\0\0\0\0\0\0\0\x8a\x13\0\0\0\0\0\0\x20\x4e\0\0\x48\x71\0\0\x01";
    assert_eq!(&rt; kept.image().get(213..248), Some(before));
    Ok(())
}

#[test]
fn last_lines(rt: HostRuntime) -> Result<(), Fail> {
    let alloc = rt.alloc();
    let kept = ran(
        &rt,
        alloc,
        disk(alloc, &[], &[])?,
        "file",
        LIMITS,
        (6, b"fault no office\n"),
    )?;
    ran(&rt, alloc, kept, "files", b"", (2, b"fault usage\n"))?;
    let kept = ran(
        &rt,
        alloc,
        office(&rt, alloc)?,
        "found",
        b"",
        (6, b"fault office exists\n"),
    )?;
    ran(&rt, alloc, kept, "file", b"", (0, b""))?;
    Ok(())
}

// The first call of the disk, as the journal is opened.
#[test]
fn a_disk_that_fails(rt: HostRuntime) -> Result<(), Fail> {
    let alloc = rt.alloc();
    let kept = office(&rt, alloc)?;
    let opened = disk(alloc, kept.image(), &[1])?;
    ran(
        &rt,
        alloc,
        opened,
        "file",
        b"lend,110,2,5001,2025,sub,1.00\n",
        (5, b"fault disk none\n"),
    )?;
    Ok(())
}
