//! What no clause says of disks: which calls fail, what a stop leaves, and that a real file is read and written.
use crate::tools::{assert_same, disk};
use io_host::HostDisk;
use io_memory::{DiskStop, Fill, MemoryDisk};
use io_traits::{Disk, Failed};
use std::alloc::AllocError;
use std::fs::{self, OpenOptions};
use std::process::Abort;
use std::test::Fail;

const LETTERS: &[u8] = b"abcdefgh";

#[test]
fn works_and_fails_as_told(rt: HostRuntime) -> Result<(), AllocError> {
    let worked = worked(&rt, disk(rt.alloc(), LETTERS, &[2, 5], None)?);
    assert_same(&rt, &"its bytes", &worked.image(), &b"XYcdefgh".as_slice());
    assert_same(&rt, &"the longest read", &worked.longest_read(), &5);
    Ok(())
}

// The second call and the fifth fail.
fn worked(rt: &impl Abort, mut disk: MemoryDisk) -> MemoryDisk {
    let mut buf = [0; 5];
    assert_same(rt, &"the first call", &disk.len(), &Ok(8));
    assert_same(rt, &"the second call", &disk.len(), &Err(Failed));
    assert_same(rt, &"a write", &disk.write_at(0, b"XY"), &Ok(()));
    assert_same(rt, &"a read", &disk.read_at(1, &mut buf), &Ok(5));
    assert_same(rt, &"what is read", &buf, b"Ycdef");
    assert_same(rt, &"the fifth call", &disk.sync(), &Err(Failed));
    assert_same(rt, &"a sync", &disk.sync(), &Ok(()));
    disk
}

// What stands after a write of two bytes that stops, and after a cut to nothing that does.
const STOPPED: [(Fill, &[u8], &[u8]); 3] = [
    (Fill::Unwritten, LETTERS, LETTERS),
    (Fill::Written, b"XYcdefgh", b""),
    (
        Fill::With(7),
        b"\x07\x07cdefgh",
        b"\x07\x07\x07\x07\x07\x07\x07\x07",
    ),
];

#[test]
fn leaves_what_a_stop_says(rt: HostRuntime) -> Result<(), AllocError> {
    for (fill, written, cut) in STOPPED {
        let stop = Some(DiskStop { call: 1, fill });
        assert_written(&rt, disk(rt.alloc(), LETTERS, &[], stop)?, written);
        assert_cut(&rt, disk(rt.alloc(), LETTERS, &[], stop)?, cut);
    }
    Ok(())
}

fn assert_written(rt: &impl Abort, mut disk: MemoryDisk, wanted: &[u8]) {
    assert_same(rt, &"a write", &disk.write_at(0, b"XY"), &Err(Failed));
    assert_same(rt, &"behind the write", &disk.image(), &wanted);
    assert_same(rt, &"a call past the write", &disk.sync(), &Err(Failed));
}

fn assert_cut(rt: &impl Abort, mut disk: MemoryDisk, wanted: &[u8]) {
    assert_same(rt, &"a cut", &disk.cut(0), &Err(Failed));
    assert_same(rt, &"behind the cut", &disk.image(), &wanted);
    assert_same(rt, &"a call past the cut", &disk.len(), &Err(Failed));
}

#[test]
fn works_over_a_file(rt: HostRuntime) -> Result<(), Fail> {
    let path = "disk_model_test.bin";
    let file = OpenOptions::new()
        .read(true)
        .write(true)
        .create(true)
        .truncate(true)
        .open(&rt, path)?;
    assert_kept(&rt, HostDisk::new(file));
    fs::remove_file(&rt, path)?;
    Ok(())
}

fn assert_kept(rt: &impl Abort, mut disk: HostDisk) {
    let mut buf = [0; 8];
    assert_same(rt, &"a write", &disk.write_at(0, b"abc"), &Ok(()));
    assert_same(rt, &"a write behind it", &disk.write_at(3, b"de"), &Ok(()));
    assert_same(rt, &"a sync", &disk.sync(), &Ok(()));
    assert_same(rt, &"a read", &disk.read_at(1, &mut buf), &Ok(4));
    assert_same(rt, &"what is read", &buf, b"bcde\0\0\0\0");
    assert_same(rt, &"a cut", &disk.cut(2), &Ok(()));
    assert_same(rt, &"its length", &disk.len(), &Ok(2));
}
