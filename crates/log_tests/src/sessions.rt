// Numbers are filed, kept and filed again, or only looked at.
ghost use Rattle.log_session.specs.Sessions.{Session};
ghost use Rattle.log_tests.specs.Rising.{byte_rows, rising_judging, rising_scheme, rising_texts};

use crate::files::{copied, disk, numbers};
use crate::forms::ByteRowFormat;
use crate::rising::Rising;
use io_memory::{MemoryDisk, MemorySink, SteadySource};
use io_traits::{Disk, Sink, Source};
use log_session::{CheckTally, INPUT_LIMIT, SessionStop, check, file, found};
use std::alloc::Global;
use std::process::Abort;

// Files the numbers of an input into the list of the disk's file, and answers each by a line.
fn file_numbers<D: Disk, S: Source, K: Sink>(
    alloc: Global,
    disk: D,
    input: &mut S,
    out: &mut K,
) -> (Result<(), SessionStop>, D)
    ensures session { Session D.Disk rising_scheme rising_judging rising_texts byte_rows INPUT_LIMIT disk result.1
        (record { honest = S.honest input.old; before = S.left input.old; after = S.left input.new })
        (record { honest = K.honest out.old; before = K.text out.old; after = K.text out.new }) result.0 }
{
    file::<D, S, K, Rising, ByteRowFormat>(alloc, disk, &ByteRowFormat, input, out)
}

#[test]
fn numbers_are_kept(rt: HostRuntime) {
    let alloc = rt.alloc();
    let image = founded(&rt, alloc);
    let lines = b"kept\nrefused\nno number\nkept\n";
    let image = filed(&rt, alloc, image.as_slice(), b"\x05\x05\x00\x09", lines);
    let image = filed(
        &rt,
        alloc,
        image.as_slice(),
        b"\x09\x0a",
        b"refused\nkept\n",
    );
    assert_eq!(rt; image.len(), 17 + 3 * 6);
    let numbers = numbers(&rt, alloc, image.as_slice());
    assert_eq!(rt; numbers.as_slice(), b"\x05\x09\x0a".as_slice());
}

// The file of a new list.
fn founded(rt: &impl Abort, alloc: Global) -> Vec<u8> {
    let disk = disk(rt, alloc, b"", &[], None);
    let mut sink = MemorySink::new(alloc, Vec::new(alloc));
    let (ended, disk) = found::<MemoryDisk, MemorySink, Rising>(
        alloc,
        disk,
        b"founded\n",
        &mut sink,
    );
    assert!(rt; ended.is_ok());
    copied(rt, alloc, disk.image())
}

// Files the numbers of an input, which are answered so. Gives the file.
fn filed(rt: &impl Abort, alloc: Global, image: &[u8], input: &[u8], lines: &[u8]) -> Vec<u8> {
    let disk = disk(rt, alloc, image, &[], None);
    let mut source = SteadySource::new(copied(rt, alloc, input));
    let mut sink = MemorySink::new(alloc, Vec::new(alloc));
    let (ended, disk) = file_numbers(alloc, disk, &mut source, &mut sink);
    assert_eq!(rt; ended, Ok(()));
    assert_eq!(rt; sink.text(), lines);
    copied(rt, alloc, disk.image())
}

#[test]
fn numbers_are_looked_at(rt: HostRuntime) {
    let alloc = rt.alloc();
    let mut source = SteadySource::new(copied(&rt, alloc, b"\x05\x05\x00\x09"));
    let mut sink = MemorySink::new(alloc, Vec::new(alloc));
    let tally = check::<SteadySource, MemorySink, Rising, ByteRowFormat>(
        alloc,
        &ByteRowFormat,
        &mut source,
        &mut sink,
    );
    assert_eq!(rt; tally, Ok(CheckTally { rows: 4, errors: 1 }));
    assert_eq!(rt; sink.text(), b"fine\nfine\nno number\nfine\n".as_slice());
}
