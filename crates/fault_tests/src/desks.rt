// What many desks do at once: two that pay one student, in either order, one that ends early, those that don't begin, and
// those whose lines can't be written.
use crate::desk_runs::{assert_runs, with_book};
use aid_stamps::Stamp;
use io_memory::{HoldSyncPoint, MemoryDisk, MemorySink, MemorySource, SteadySource};
use io_traits::{NoSyncPoint, Source, SyncPoint, read_to_limit};
use log_session::INPUT_LIMIT;
use run_office::{DeskInput, run_desks};
use std::alloc::{AllocError, Global};
use std::process::Abort;
use std::sync::Wait;
use std::test::Fail;
use std::thread::Threads;
use whole_runs::{BOTH, CUT, Run, disk, long_input};

// Two schools with two terms each, and a student at both with 550,000 lifetime units.
const ROWS: &str = "\
prior,0,3,5001,550000\n\
school,0,2,110,2,12\n\
calendar,110,1,2025,1,0,2025-08-25,2025-12-02,0\n\
calendar,110,2,2025,2,0,2026-01-12,2026-04-21,0\n\
apply,110,100,5001,2025,1,2006,0,4,0,0,0,0,0,0,0,0,0,0,1,0,0,0,0,0,0,0,0,0,0,0,0,0,0,0,0,1,0,48,0,0,0,0,0,0,0,0,0,0,0,0,0,0,0,0\n\
enrol,110,101,5001,2025,1,12\n\
enrol,110,102,5001,2025,2,12\n\
originate,110,103,5001,2025,24000\n\
school,0,4,120,2,12\n\
calendar,120,1,2025,1,0,2025-08-25,2025-12-02,0\n\
calendar,120,2,2025,2,0,2026-01-12,2026-04-21,0\n\
enrol,120,3,5001,2025,2,12\n\
originate,120,4,5001,2025,24000\n";

const LINES: &str = "\
1 1 accepted 2 noted\n\
2 2 accepted 3 noted\n\
3 3 accepted 4 noted\n\
4 4 accepted 5 noted\n\
5 5 accepted 6 index A -1500 maximum 7395\n\
6 6 accepted 7 noted\n\
7 7 accepted 8 noted\n\
8 8 accepted 9 noted\n\
9 9 accepted 10 noted\n\
10 10 accepted 11 noted\n\
11 11 accepted 12 noted\n\
12 12 accepted 13 noted\n\
13 13 accepted 14 noted\n";

// The office of these rows.
fn two_schools(rt: &impl Abort, alloc: Global) -> Result<MemoryDisk, Fail> {
    let book = with_book(rt, alloc)?;
    assert_runs(rt, alloc, book.image(), &[("file", ROWS, 0, LINES)])
}

// Two desks file their rows behind a gate, which ends with this status and this text.
fn assert_filed<H: Threads + Wait + Abort + Sync>(
    rt: &H,
    alloc: Global,
    disk: MemoryDisk,
    gate: &HoldSyncPoint,
    rows: [&[u8]; 2],
    ends: (u8, &[u8]),
) -> Result<(), Fail> {
    assert_written(rt, alloc, disk, gate, rows, &[], ends)?;
    Ok(())
}

// The same where these calls of the sink fail. Gives the disk.
fn assert_written<H: Threads + Wait + Abort + Sync>(
    rt: &H,
    alloc: Global,
    disk: MemoryDisk,
    gate: &HoldSyncPoint,
    rows: [&[u8]; 2],
    failing: &[u64],
    ends: (u8, &[u8]),
) -> Result<MemoryDisk, Fail> {
    let mut desks = desks_with(alloc, &rows)?;
    assert_ends(rt, alloc, &mut desks, disk, gate, failing, ends)
}

// Desks file their rows behind a gate, where these calls of the sink fail. They end with this status and this text. Gives the disk.
fn assert_ends<G: SyncPoint + Sync, H: Threads + Wait + Abort + Sync>(
    rt: &H,
    alloc: Global,
    desks: &mut [DeskInput<SteadySource>],
    disk: MemoryDisk,
    gate: &G,
    failing: &[u64],
    ends: (u8, &[u8]),
) -> Result<MemoryDisk, Fail> {
    let (status, sink, after) = filed(rt, alloc, desks, disk, gate, failing)?;
    assert_eq!(rt; status, ends.0);
    assert_eq!(rt; sink.text(), ends.1);
    Ok(after)
}

// The same without asserting how they end. Gives the status, the sink with the text, and the disk.
fn filed<S: Source, G: SyncPoint + Sync, H: Threads + Wait + Sync>(
    rt: &H,
    alloc: Global,
    desks: &mut [DeskInput<S>],
    disk: MemoryDisk,
    gate: &G,
    failing: &[u64],
) -> Result<(u8, MemorySink, MemoryDisk), AllocError> {
    let failing = failing.to_vec(alloc)?;
    let mut sink = MemorySink::new(alloc, failing);
    let (status, after) = run_desks(rt, alloc, desks, disk, gate, &mut sink);
    Ok((status, sink, after))
}

// A desk that files under the plain stamp.
fn plain_desk<S>(input: S) -> DeskInput<S> {
    DeskInput {
        input,
        stamp: Stamp::plain(),
    }
}

// Desks with these rows.
fn desks_with(alloc: Global, rows: &[&[u8]]) -> Result<Vec<DeskInput<SteadySource>>, AllocError> {
    let mut desks = Vec::new(alloc);
    for row in rows {
        let input = SteadySource::new(row.to_vec(alloc)?);
        desks.push(plain_desk(input))?;
    }
    Ok(desks)
}

// The payments of 3,000 dollars that two schools file for the student, whose lifetime limit has room for one of them.
const PAYMENTS: [&[u8]; 2] = [
    b"pay,110,9,5001,2025,1,pell,3000.00\n",
    b"pay,120,9,5001,2025,2,pell,3000.00\n",
];

#[test]
fn desk_1_pays_first(rt: HostRuntime) -> Result<(), Fail> {
    let gate = HoldSyncPoint::new(2, 1, 1_000_000);
    let text =
        b"desk 1 1 14 accepted 15 paid 3000.00 590568\ndesk 2 1 15 refused 56 631136 600000\nadmitted 15 1 1\n";
    assert_paid(&rt, rt.alloc(), &gate, text)
}

#[test]
fn desk_2_pays_first(rt: HostRuntime) -> Result<(), Fail> {
    let gate = HoldSyncPoint::new(1, 2, 1_000_000);
    let text =
        b"desk 1 1 15 refused 56 631136 600000\ndesk 2 1 14 accepted 15 paid 3000.00 590568\nadmitted 15 2 1\n";
    assert_paid(&rt, rt.alloc(), &gate, text)
}

// Both schools file their payments, and are answered so.
fn assert_paid<H: Threads + Wait + Abort + Sync>(
    rt: &H,
    alloc: Global,
    gate: &HoldSyncPoint,
    text: &[u8],
) -> Result<(), Fail> {
    let disk = two_schools(rt, alloc)?;
    assert_filed(rt, alloc, disk, gate, PAYMENTS, (0, text))
}

// The disk fails in the turn of desk 1's first row, by the numbers of its calls. Desk 2 files on, and where that row's filing was
// undecided its turn settles it. Where the file couldn't be made longer, desk 2's turn doesn't try it again: it ends with call 10.
#[test]
fn a_desk_ends_early(rt: HostRuntime) -> Result<(), Fail> {
    for (calls, text) in DISK_FAULTS {
        assert_disk_fault(&rt, rt.alloc(), calls, text)?;
    }
    Ok(())
}

// These calls of the disk fail, and this is the text.
fn assert_disk_fault<H: Threads + Wait + Abort + Sync>(
    rt: &H,
    alloc: Global,
    calls: &[u64],
    text: &[u8],
) -> Result<(), Fail> {
    let gate = HoldSyncPoint::new(2, 1, 1_000_000);
    let disk = disk(alloc, BOTH, calls, None)?;
    assert_filed(rt, alloc, disk, &gate, TWO_AND_ONE, (5, text))
}

const TWO_AND_ONE: [&[u8]; 2] = [
    b"prior,0,7,5007,1\nprior,0,9,5009,1\n",
    b"prior,0,8,5008,1\n",
];

// The calls of the disk that fail, and the text. The file is made longer by a call, the record is written and synced by two more,
// desk 1's second row is written ahead by one, and the gate is written and synced by another two.
const DISK_FAULTS: [(&[u64], &[u8]); 5] = [
    (
        &[5],
        b"desk 1 1 fault disk none\ndesk 2 1 2 accepted 3 noted\nadmitted 3 2 1\n",
    ),
    (
        &[5, 11],
        b"desk 1 1 fault disk none\ndesk 2 1 2 accepted 3 noted\nadmitted 3 2 1\n",
    ),
    (
        &[6],
        b"desk 1 1 fault disk none\ndesk 2 1 2 accepted 3 noted\nadmitted 3 2 1\n",
    ),
    (
        &[8],
        b"desk 1 1 fault disk none\ndesk 2 1 2 accepted 3 noted\nadmitted 3 2 1\n",
    ),
    (
        &[9],
        b"desk 1 1 fault disk 3\ndesk 2 1 3 accepted 4 noted\nadmitted 3 1 1\nadmitted 4 2 1\n",
    ),
];

// The text ends where a write fails, in the lines of the desks or in those behind them. What they filed stands as one
// session leaves it, and the file may be longer.
#[test]
fn all_have_filed_when_a_write_fails(rt: HostRuntime) -> Result<(), Fail> {
    let alloc = rt.alloc();
    let filed = assert_runs(&rt, alloc, BOTH, &ONE_SESSION)?;
    for (call, status, text) in WRITE_FAULTS {
        let after = failed_write(&rt, alloc, call, (status, text))?;
        assert!(rt; after.image().starts_with(filed.image()), "call {call}");
    }
    Ok(())
}

// This call of the sink fails, and the desks end so. Gives the disk.
fn failed_write<H: Threads + Wait + Abort + Sync>(
    rt: &H,
    alloc: Global,
    call: u64,
    ends: (u8, &[u8]),
) -> Result<MemoryDisk, Fail> {
    let gate = HoldSyncPoint::new(2, 1, 1_000_000);
    let disk = disk(alloc, BOTH, &[], None)?;
    assert_written(rt, alloc, disk, &gate, ONE_AND_ONE, &[call], ends)
}

const ONE_AND_ONE: [&[u8]; 2] = [b"prior,0,7,5007,1\n", b"prior,0,8,5008,1\n"];

// The same rows in one session.
const ONE_SESSION: [Run; 1] = [(
    "file",
    "prior,0,7,5007,1\nprior,0,8,5008,1\n",
    0,
    "1 2 accepted 3 noted\n2 3 accepted 4 noted\n",
)];

// The call of the sink that fails, the status, and the text.
const WRITE_FAULTS: [(u64, u8, &[u8]); 4] = [
    (2, 4, b"desk 1 1 2 accepted 3 noted\n"),
    (
        3,
        4,
        b"desk 1 1 2 accepted 3 noted\ndesk 2 1 3 accepted 4 noted\n",
    ),
    (
        4,
        4,
        b"desk 1 1 2 accepted 3 noted\ndesk 2 1 3 accepted 4 noted\nadmitted 3 1 1\n",
    ),
    (
        5,
        0,
        b"desk 1 1 2 accepted 3 noted\ndesk 2 1 3 accepted 4 noted\nadmitted 3 1 1\nadmitted 4 2 1\n",
    ),
];

// No input is read behind one that fails, or that is too long.
#[test]
fn an_input_stops_those_behind_it(rt: HostRuntime) -> Result<(), Fail> {
    let alloc = rt.alloc();
    let failing = MemorySource::new(long_input(alloc, 20)?, vec![in alloc; 1]?);
    assert_stopped(&rt, alloc, failing, 3, "fault read\n")?;
    let long = MemorySource::new(long_input(alloc, INPUT_LIMIT + 1)?, Vec::new(alloc));
    assert_stopped(&rt, alloc, long, 8, "fault too long\n")
}

// Three desks, the second of which has an input that stops them, end so: the first input was read whole, the third not at all.
fn assert_stopped<H: Threads + Wait + Abort + Sync>(
    rt: &H,
    alloc: Global,
    bad: MemorySource,
    want: u8,
    text: &str,
) -> Result<(), Fail> {
    let mut desks = three_desks(alloc, bad)?;
    assert_untouched(rt, alloc, &mut desks, BOTH, &[], (want, text))?;
    assert_left(rt, alloc, desks.as_mut_slice(), 0, b"")?;
    assert_left(rt, alloc, desks.as_mut_slice(), 2, GOOD)
}

// Desks end with this status and this text, where these calls of the sink fail, and their file stays as it was.
fn assert_untouched<H: Threads + Wait + Abort + Sync>(
    rt: &H,
    alloc: Global,
    desks: &mut [DeskInput<MemorySource>],
    image: &[u8],
    failing: &[u64],
    ends: (u8, &str),
) -> Result<(), Fail> {
    let count = desks.len();
    let disk = disk(alloc, image, &[], None)?;
    let (status, sink, after) = filed(rt, alloc, desks, disk, &NoSyncPoint, failing)?;
    let (want, text) = ends;
    assert_eq!(rt; status, want, "{count} desks, {text}");
    assert_eq!(rt; sink.text(), text.as_bytes(), "{count} desks");
    assert_eq!(rt; after.image(), image, "{count} desks, {text}");
    Ok(())
}

// What wasn't read of the input of the desk at this place.
fn assert_left(
    rt: &impl Abort,
    alloc: Global,
    desks: &mut [DeskInput<MemorySource>],
    place: usize,
    rest: &[u8],
) -> Result<(), Fail> {
    let Some(desk) = desks.get_mut(place) else {
        return Err(Fail::new("no such desk"));
    };
    let left = read_to_limit(alloc, &mut desk.input, INPUT_LIMIT)?;
    assert_eq!(rt; left.as_slice(), rest, "desk at {place}");
    Ok(())
}

// A desk with this input between two with a good one.
fn three_desks(
    alloc: Global,
    between: MemorySource,
) -> Result<Vec<DeskInput<MemorySource>>, AllocError> {
    let first = good_desk(alloc)?;
    let third = good_desk(alloc)?;
    Ok(vec![in alloc; first, plain_desk(between), third]?)
}

const GOOD: &[u8] = b"prior,0,2,5001,550000\n";

fn good_desk(alloc: Global) -> Result<DeskInput<MemorySource>, AllocError> {
    desk_where(alloc, &[])
}

// A desk of whose input these calls fail.
fn desk_where(alloc: Global, failing: &[u64]) -> Result<DeskInput<MemorySource>, AllocError> {
    let text = GOOD.to_vec(alloc)?;
    let failing = failing.to_vec(alloc)?;
    Ok(plain_desk(MemorySource::new(text, failing)))
}

#[test]
fn desks_that_do_not_begin(rt: HostRuntime) -> Result<(), Fail> {
    for row in UNFILED {
        assert_unfiled(&rt, rt.alloc(), row)?;
    }
    Ok(())
}

// How many desks there are, which of them can't be read, a file, the calls of the sink that fail, and the status and the text.
type Unfiled = (u32, u32, &'static [u8], &'static [u64], u8, &'static str);

const UNFILED: [Unfiled; 8] = [
    (0, 0, BOTH, &[], 2, "fault usage\n"),
    (17, 0, BOTH, &[], 2, "fault usage\n"),
    (3, 2, BOTH, &[], 3, "fault read\n"),
    (1, 0, b"ten bytes.", &[], 6, "fault no office\n"),
    (1, 0, b"eighteen letters..", &[], 6, "fault not a journal\n"),
    (2, 0, CUT, &[], 7, "fault damaged 45\n"),
    (16, 0, BOTH, &[1], 4, ""),
    (3, 2, BOTH, &[1], 4, ""),
];

fn assert_unfiled<H: Threads + Wait + Abort + Sync>(
    rt: &H,
    alloc: Global,
    row: Unfiled,
) -> Result<(), Fail> {
    let (count, unread, image, failing, want, text) = row;
    let mut desks = desks_of(alloc, count, unread)?;
    assert_untouched(rt, alloc, &mut desks, image, failing, (want, text))
}

// So many desks, of which the one with this number can't be read.
fn desks_of(
    alloc: Global,
    count: u32,
    unread: u32,
) -> Result<Vec<DeskInput<MemorySource>>, AllocError> {
    let mut desks = Vec::new(alloc);
    for number in 1..=count {
        let failing: &[u64] = if number == unread { &[1] } else { &[] };
        desks.push(desk_where(alloc, failing)?)?;
    }
    Ok(desks)
}

// Two gates, each of which holds a desk up.
#[derive(Drop)]
struct TwoGates {
    first: HoldSyncPoint,
    second: HoldSyncPoint,
}

impl SyncPoint for TwoGates {
    fn hold(&self, desk: u32, row: u32) {
        self.first.hold(desk, row);
        self.second.hold(desk, row);
    }

    fn answered(&self, desk: u32, row: u32) {
        self.first.answered(desk, row);
        self.second.answered(desk, row);
    }
}

// Desk 2 files first, then desk 1, then desk 3. The gate byte of desk 2's record can't be written, nor can desk 1's turn write it;
// that of desk 3 does. The last lines of desks 1 and 2 name the same position. The line `admitted` names the first of the two rows
// where both file the same, and else that which files what stands there.
#[test]
fn the_first_row_is_named(rt: HostRuntime) -> Result<(), Fail> {
    for (row, text) in NAMED {
        assert_named(&rt, rt.alloc(), row, text)?;
    }
    Ok(())
}

// The row of desk 1, and the text.
const NAMED: [(&[u8], &[u8]); 2] = [
    (
        b"prior,0,7,5007,1\n",
        b"desk 1 1 fault disk 3\ndesk 2 1 fault disk 3\ndesk 3 1 3 accepted 4 noted\nadmitted 3 1 1\nadmitted 4 3 1\n",
    ),
    (
        b"prior,0,9,5009,1\n",
        b"desk 1 1 fault disk 3\ndesk 2 1 fault disk 3\ndesk 3 1 3 accepted 4 noted\nadmitted 3 2 1\nadmitted 4 3 1\n",
    ),
];

fn assert_named<H: Threads + Wait + Abort + Sync>(
    rt: &H,
    alloc: Global,
    row: &[u8],
    text: &[u8],
) -> Result<(), Fail> {
    let gate = TwoGates {
        first: HoldSyncPoint::new(1, 2, 1_000_000),
        second: HoldSyncPoint::new(3, 1, 1_000_000),
    };
    let rows: [&[u8]; 3] = [row, b"prior,0,7,5007,1\n", b"prior,0,8,5008,1\n"];
    let mut desks = desks_with(alloc, &rows)?;
    let disk = disk(alloc, BOTH, &[8, 9], None)?;
    assert_ends(rt, alloc, &mut desks, disk, &gate, &[], (5, text))?;
    Ok(())
}
