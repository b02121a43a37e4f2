// Each last line, with its status, and what an upgrade leaves of both files.
use crate::upgrade_files::{NEW, NEW_EMPTY, OLD, OLD_EMPTY, TWICE};
use crate::upgrade_runs::{File, upgraded};
use std::alloc::Global;
use std::process::Abort;
use std::test::Fail;

/// The source, the target, the writes that fail, the status, the text, and the target's bytes behind it.
type Row = (
    File<'static>,
    File<'static>,
    &'static [u64],
    u8,
    &'static str,
    &'static [u8],
);

const ROWS: [Row; 18] = [
    ((OLD, &[]), (b"", &[]), &[], 0, "copied 2\n", NEW),
    ((OLD, &[]), (b"ten bytes.", &[]), &[], 0, "copied 2\n", NEW),
    (
        (OLD_EMPTY, &[]),
        (b"", &[]),
        &[],
        0,
        "copied 0\n",
        NEW_EMPTY,
    ),
    ((OLD, &[]), (b"", &[]), &[1], 4, "", NEW),
    ((b"", &[]), (b"", &[]), &[1], 4, "", b""),
    ((OLD, &[1]), (b"", &[]), &[], 5, "fault disk source\n", b""),
    ((OLD, &[]), (b"", &[1]), &[], 5, "fault disk target\n", b""),
    ((b"", &[]), (b"", &[]), &[], 6, "fault no office\n", b""),
    (
        (b"ten bytes.", &[]),
        (NEW, &[]),
        &[],
        6,
        "fault no office\n",
        NEW,
    ),
    (
        (b"eighteen letters..", &[]),
        (b"", &[]),
        &[],
        6,
        "fault not a journal\n",
        b"",
    ),
    ((NEW, &[]), (b"", &[]), &[], 6, "fault new version\n", b""),
    (
        (NEW_EMPTY, &[]),
        (NEW, &[]),
        &[],
        6,
        "fault new version\n",
        NEW,
    ),
    ((OLD, &[]), (NEW, &[]), &[], 6, "fault office exists\n", NEW),
    ((OLD, &[]), (OLD, &[]), &[], 6, "fault office exists\n", OLD),
    (
        (OLD, &[]),
        (b"eighteen letters..", &[]),
        &[],
        6,
        "fault target\n",
        b"eighteen letters..",
    ),
    ((TWICE, &[]), (b"", &[]), &[], 7, "fault damaged 40\n", b""),
    ((TWICE, &[]), (NEW, &[]), &[], 7, "fault damaged 40\n", NEW),
    ((TWICE, &[]), (b"", &[1]), &[], 7, "fault damaged 40\n", b""),
];

#[test]
fn last_lines(rt: HostRuntime) -> Result<(), Fail> {
    for row in ROWS {
        assert_row(&rt, rt.alloc(), row)?;
    }
    Ok(())
}

fn assert_row(rt: &impl Abort, alloc: Global, row: Row) -> Result<(), Fail> {
    let (source, target, failing, status, text, left) = row;
    let after = upgraded(alloc, source, target, failing)?;
    assert_eq!(rt; after.status, status);
    assert_eq!(rt; after.out.text(), text.as_bytes());
    assert_eq!(rt; after.source.image(), source.0);
    assert_eq!(rt; after.target.image(), left);
    Ok(())
}

// Every front of the file of two filings but the whole.
#[test]
fn a_source_cut_off(rt: HostRuntime) -> Result<(), Fail> {
    for len in 17..OLD.len() {
        assert_cut(&rt, rt.alloc(), &OLD[..len])?;
    }
    Ok(())
}

fn assert_cut(rt: &impl Abort, alloc: Global, front: &[u8]) -> Result<(), Fail> {
    let after = upgraded(alloc, (front, &[]), (b"", &[]), &[])?;
    assert_eq!(rt; after.status, 7);
    assert_eq!(rt; after.out.text(), damaged_line(front.len()).as_bytes());
    assert_eq!(rt; after.target.image(), b"".as_slice());
    Ok(())
}

// The last line where so many bytes of the file are left.
fn damaged_line(len: usize) -> &'static str {
    match len {
        17..40 => "fault damaged 16\n",
        40..70 => "fault damaged 40\n",
        _ => "fault damaged 70\n",
    }
}
