//! Numbers that were planned on a list are filed over a disk or into a sink that fails at each of its calls: what a text answered
//! stands, with the number that a fault left undecided or without it, and planned once more none is filed twice.
ghost use Rattle.std.specs.Prelude.{◌≡◌, None};

use crate::files::{copied, disk, numbers};
use crate::forms::{ByteRowFormat, BytesLeft};
use crate::rising::Rising;
use io_memory::{DiskStop, Fill, MemoryDisk, MemorySink};
use log_machine::{Log, OpenError, RowFormat};
use log_session::{FileStop, SessionStop, file_planned, open};
use std::alloc::Global;
use std::process::Abort;

// The file of a list of one number, the numbers planned on it, and the list of all.
const OPENING: &[u8] = b"\x01NUMBERS1\x01\0\0\0\0\0\0\x01\x01\0\0\0\x05\0";

const PLANNED: &[u8] = b"\x06\x07\x09";

const ALL: &[u8] = b"\x05\x06\x07\x09";

// The text of a round that nothing disturbs.
const TEXT: &[u8] = b"kept\nkept\nkept\nclosed\n";

// Why a round ended early, its text, and its disk.
#[derive(Drop)]
struct Round {
    ended: Result<(), SessionStop>,
    text: Vec<u8>,
    disk: MemoryDisk,
}

// Rows that may be filed.
fn rows(rt: &impl Abort, alloc: Global, numbers: &[u8]) -> BytesLeft {
    let text = copied(rt, alloc, numbers);
    assert!(rt; text.len() < 1_000);
    ByteRowFormat.read(alloc, text).expect(rt, "memory")
}

// A sink of which these calls fail.
fn sink(rt: &impl Abort, alloc: Global, failing: &[u64]) -> MemorySink {
    MemorySink::new(alloc, failing.to_vec(alloc).expect(rt, "memory"))
}

// Files numbers that were planned on an open list. Gives how that ended.
fn file(
    alloc: Global,
    kept: &mut Log<MemoryDisk, Rising>,
    rows: BytesLeft,
    sink: &mut MemorySink,
) -> Result<(), FileStop>
    requires { kept.old.pending ≡ None }
{
    file_planned::<MemoryDisk, MemorySink, Rising, BytesLeft>(alloc, kept, rows, b"closed\n", sink)
}

// Files the planned numbers into the list of the disk's file.
fn run_round(rt: &impl Abort, alloc: Global, disk: MemoryDisk, failing: &[u64]) -> Round {
    let rows = rows(rt, alloc, PLANNED);
    let mut sink = sink(rt, alloc, failing);
    let (ended, disk) = match open::<MemoryDisk, Rising>(alloc, disk) {
        Ok(mut kept) => {
            let ended = file(alloc, &mut kept, rows, &mut sink);
            (ended.map_err(SessionStop::Filing), kept.into_disk())
        }
        Err((error, disk)) => (Err(SessionStop::Opening(error)), disk),
    };
    let text = copied(rt, alloc, sink.text());
    Round { ended, text, disk }
}

// On a file where so many numbers stand the rest of them is kept, and those that stood are refused.
fn assert_again(rt: &impl Abort, alloc: Global, image: &[u8], stood: usize) {
    let text: &[u8] = match stood {
        1 => TEXT,
        2 => b"refused\nkept\nkept\nclosed\n",
        3 => b"refused\nrefused\nkept\nclosed\n",
        _ => b"refused\nrefused\nrefused\nclosed\n",
    };
    let round = run_round(rt, alloc, disk(rt, alloc, image, &[], None), &[]);
    assert_eq!(rt; round.ended, Ok(()));
    assert_eq!(rt; round.text.as_slice(), text);
    assert_eq!(rt; numbers(rt, alloc, round.disk.image()).as_slice(), ALL);
}

// A round over a disk and into a sink of which these calls fail ends so, with this text and these numbers, and is run again.
fn assert_round(
    rt: &impl Abort,
    alloc: Global,
    calls: &[u64],
    writes: &[u64],
    stop: SessionStop,
    text: &[u8],
    snapshot: &[u8],
) {
    let disk = disk(rt, alloc, OPENING, calls, None);
    let round = run_round(rt, alloc, disk, writes);
    assert_ended(rt, &round, stop, text);
    assert_left(rt, alloc, round.disk.image(), snapshot);
}

fn assert_ended(rt: &impl Abort, round: &Round, stop: SessionStop, text: &[u8]) {
    assert_eq!(rt; round.ended, Err(stop));
    assert_eq!(rt; round.text.as_slice(), text);
}

// These numbers stand in a file, on which the round is run again.
fn assert_left(rt: &impl Abort, alloc: Global, image: &[u8], snapshot: &[u8]) {
    assert_eq!(rt; numbers(rt, alloc, image).as_slice(), snapshot);
    assert_again(rt, alloc, image, snapshot.len());
}

// The call that fails, the position that it leaves undecided, the text, and the numbers that stand. The first record is written
// and synced; then the record behind it and its own gate are written and synced, and so on. Where the record behind it can't be
// written, nothing is undecided.
const FAULTS: [(u64, Option<u32>, &[u8], &[u8]); 10] = [
    (5, None, b"", b"\x05"),
    (6, None, b"", b"\x05"),
    (7, None, b"", b"\x05"),
    (8, Some(2), b"", b"\x05"),
    (9, Some(2), b"", b"\x05\x06"),
    (10, None, b"kept\n", b"\x05\x06"),
    (11, Some(3), b"kept\n", b"\x05\x06"),
    (12, Some(3), b"kept\n", b"\x05\x06\x07"),
    (13, Some(4), b"kept\nkept\n", b"\x05\x06\x07"),
    (14, Some(4), b"kept\nkept\n", b"\x05\x06\x07\x09"),
];

#[test]
fn stands_where_a_call_fails(rt: HostRuntime) {
    for (call, undecided, text, snapshot) in FAULTS {
        let stop = SessionStop::Filing(FileStop::DiskFault { undecided });
        assert_round(&rt, rt.alloc(), &[call], &[], stop, text, snapshot);
    }
}

// The list isn't opened where one of the first four calls fails.
#[test]
fn stands_where_opening_fails(rt: HostRuntime) {
    for call in 1..5 {
        let stop = SessionStop::Opening(OpenError::DiskFault);
        assert_round(&rt, rt.alloc(), &[call], &[], stop, b"", b"\x05");
    }
}

// The call of the sink that fails, the text, and the numbers that stand.
const CUTS: [(u64, &[u8], &[u8]); 4] = [
    (1, b"", b"\x05\x06"),
    (2, b"kept\n", b"\x05\x06\x07"),
    (3, b"kept\nkept\n", b"\x05\x06\x07\x09"),
    (4, b"kept\nkept\nkept\n", b"\x05\x06\x07\x09"),
];

#[test]
fn stands_where_a_line_is_cut(rt: HostRuntime) {
    for (call, text, snapshot) in CUTS {
        let stop = SessionStop::Filing(FileStop::Write);
        assert_round(&rt, rt.alloc(), &[], &[call], stop, text, snapshot);
    }
}

// The calls of a whole round: 4 open the list, 5 file the first number, 3 the second, and 2 the last.
const CALLS: u64 = 14;

#[test]
fn stands_where_a_disk_stops(rt: HostRuntime) {
    for call in 1..=CALLS + 1 {
        for fill in [Fill::Unwritten, Fill::Written, Fill::With(1), Fill::With(7)] {
            assert_stop(&rt, rt.alloc(), DiskStop { call, fill });
        }
    }
}

// A round whose disk stops so.
fn assert_stop(rt: &impl Abort, alloc: Global, stop: DiskStop) {
    let disk = disk(rt, alloc, OPENING, &[], Some(stop));
    let round = run_round(rt, alloc, disk, &[]);
    assert_eq!(rt; round.ended.is_ok(), stop.call > CALLS);
    assert_stands(rt, alloc, round.text.as_slice(), round.disk.image());
}

// What a text answered stands in the file, with one number more or without it, and the round is run again on it.
fn assert_stands(rt: &impl Abort, alloc: Global, text: &[u8], image: &[u8]) {
    let snapshot = numbers(rt, alloc, image);
    assert!(rt; TEXT.starts_with(text));
    assert!(rt; ALL.starts_with(snapshot.as_slice()));
    // Each line has five bytes.
    let answered = text.len().min(15) / 5 + 1;
    assert!(rt; snapshot.len() == answered || snapshot.len() == answered + 1);
    assert_again(rt, alloc, image, snapshot.len());
}

// Room is made for all rows before the first: of five, two are answered up to the line that is cut.
#[test]
fn makes_room_for_all_rows(rt: HostRuntime) {
    let alloc = rt.alloc();
    let mut kept = opened(&rt, alloc);
    let rows = rows(&rt, alloc, b"\x06\x07\x08\x09\x0a");
    let mut sink = sink(&rt, alloc, &[2]);
    let ended = file(alloc, &mut kept, rows, &mut sink);
    assert_eq!(rt; ended, Err(FileStop::Write));
    assert_room(&rt, &kept, 3);
}

// The list of one number.
fn opened(rt: &impl Abort, alloc: Global) -> Log<MemoryDisk, Rising>
    ensures { result.pending ≡ None }
{
    match open::<MemoryDisk, Rising>(alloc, disk(rt, alloc, OPENING, &[], None)) {
        Ok(kept) => kept,
        Err((error, _)) => panic!(rt; "{error:?}"),
    }
}

// So many numbers more are taken without memory.
fn assert_room(rt: &impl Abort, kept: &Log<MemoryDisk, Rising>, room: u32) {
    assert_eq!(rt; kept.machine().room(), room);
}
