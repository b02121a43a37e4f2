//! How many rows a text may have: empty lines make no room, and a line of anything else does.
ghost use Rattle.std.specs.Prelude.{◌≤◌, length, Ok};

use csv::ByteRecord;
use format_rows::{RowError, RowReader, TextRows};
use std::alloc::{AllocError, Global};
use std::process::Abort;
use std::test::Fail;

/// Rows of which nothing is read.
struct AnyRow;

impl RowReader for AnyRow {
    type Entry = ();

    type Said = ();

    ghost meaning = { λ row texts. Ok tt };

    ghost said = { λ entry. entry };

    fn read(
        _alloc: Global,
        _row: u32,
        _texts: &ByteRecord,
    ) -> Result<Result<(), RowError>, AllocError> {
        Ok(Ok(()))
    }
}

// Asserts the room that is made for the rows of a text, and that it has so many.
fn assert_rows(
    rt: &impl Abort,
    alloc: Global,
    text: &[u8],
    room: u32,
    count: u32,
) -> Result<(), Fail>
    requires { length text.now ≤ 16777216 }
{
    let mut rows = TextRows::<AnyRow>::new(alloc, text.to_vec(alloc)?);
    assert_eq!(rt; rows.at_most(), room);
    for _ in 0..count {
        assert!(rt; rows.next()?.is_some());
    }
    assert!(rt; rows.next()?.is_none());
    assert_eq!(rt; rows.at_most(), room);
    Ok(())
}

#[test]
fn empty_lines_make_no_room(rt: HostRuntime) -> Result<(), Fail> {
    assert_rows(&rt, rt.alloc(), b"", 1, 0)?;
    assert_rows(&rt, rt.alloc(), b"\n", 1, 0)?;
    assert_rows(&rt, rt.alloc(), b"\r\n\r\n\r\n", 1, 0)?;
    assert_rows(&rt, rt.alloc(), b"\n\r\r\n\n\r", 1, 0)?;
    assert_rows(&rt, rt.alloc(), b"a\n\n\n\n\n\n\n\n", 2, 1)?;
    assert_rows(&rt, rt.alloc(), b"\n\n\n\na\n\n\n\nb\n\n\n\n", 3, 2)?;
    assert_rows(&rt, rt.alloc(), b"a\r\n\r\n\r\nb\r\n", 3, 2)?;
    assert_rows(&rt, rt.alloc(), b"\xef\xbb\xbf\na\n", 3, 1)
}

#[test]
fn lines_make_room(rt: HostRuntime) -> Result<(), Fail> {
    assert_rows(&rt, rt.alloc(), b"a", 1, 1)?;
    assert_rows(&rt, rt.alloc(), b"a\n", 2, 1)?;
    assert_rows(&rt, rt.alloc(), b"a\r\n", 2, 1)?;
    assert_rows(&rt, rt.alloc(), b"a\r", 2, 1)?;
    assert_rows(&rt, rt.alloc(), b"a\rb\rc", 3, 3)?;
    assert_rows(&rt, rt.alloc(), b",\n,\n", 3, 2)?;
    assert_rows(&rt, rt.alloc(), b"\"\"\n\"\"\n", 3, 2)
}

#[test]
fn quoted_line_feeds_make_room(rt: HostRuntime) -> Result<(), Fail> {
    assert_rows(&rt, rt.alloc(), b"\"a\nb\"\n", 3, 1)?;
    assert_rows(&rt, rt.alloc(), b"\"a\n\n\nb\"\nc", 3, 2)?;
    assert_rows(&rt, rt.alloc(), b"\"a\nb\nc\n", 4, 1)
}
