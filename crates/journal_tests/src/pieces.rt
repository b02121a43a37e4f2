//! What no clause says of a journal that is read in pieces: records across the end of a piece come back whole, and how many
//! bytes are read at once, and how often.
use crate::tools::{HEADER, assert_read, assert_same, disk, opening};
use io_traits::{Disk, PayloadBuffer};
use log_journal::{OpenError, found};
use std::alloc::{AllocError, Global};
use std::process::Abort;

// Bytes that come again after 251 of them.
fn pattern() -> [u8; 8192] {
    let mut bytes = [0; 8192];
    for (i, byte) in bytes.iter_mut().enumerate() {
        *byte = (i % 251) as u8;
    }
    bytes
}

// A journal that is founded, and into which these payloads are put.
fn holding<D: Disk>(rt: &impl Abort, disk: D, payloads: &[&[u8]]) -> D {
    assert!(rt; payloads.len() < 99);
    let mut journal = match found(disk, HEADER) {
        Ok(journal) => journal,
        Err(_) => panic!(rt; "not founded"),
    };
    for payload in payloads {
        assert!(rt; !payload.is_empty() && payload.len() <= 8192);
        match journal.put(payload) {
            Ok(()) => {}
            Err(_) => panic!(rt; "not put"),
        }
    }
    journal.into_disk()
}

// Reads a journal of these payloads.
fn read_back<D: Disk + Drop>(
    rt: &impl Abort,
    disk: D,
    room: &mut PayloadBuffer,
    payloads: &[&[u8]],
) -> D {
    let Ok(mut opening) = opening(disk) else {
        panic!(rt; "not opened");
    };
    for payload in payloads {
        let is_read = opening.next(room).is_ok_and(|place| place.is_some());
        assert!(rt; is_read && room.bytes() == *payload);
    }
    assert_same(rt, &"behind the payloads", &opening.next(room), &Ok(None));
    opening.into_disk()
}

// The places round the end of the first piece.
const FIRST: usize = 4084;

const LAST: usize = 4119;

#[test]
fn reads_across_pieces(rt: HostRuntime) -> Result<(), AllocError> {
    let mut room = PayloadBuffer::new(rt.alloc())?;
    let bytes = pattern();
    for place in FIRST..=LAST {
        assert_across(&rt, rt.alloc(), &bytes, place, &mut room)?;
    }
    Ok(())
}

// A record that ends at the place, where the second gate stands, is read, and so is what comes behind it, unless it is cut.
fn assert_across(
    rt: &impl Abort,
    alloc: Global,
    bytes: &[u8; 8192],
    place: usize,
    room: &mut PayloadBuffer,
) -> Result<(), AllocError> {
    assert!(rt; 21 <= place && place <= LAST);
    let payloads = [&bytes[..place - 21], &bytes[100..130], bytes];
    let kept = holding(rt, disk(alloc, &[], &[], None)?, &payloads);
    let kept = read_back(rt, kept, room, &payloads);
    assert!(rt; kept.image().len() == place + 8233);
    let cut = Err(OpenError::Damaged(place as u64));
    assert_read(rt, &place, alloc, &kept.image()[..place], room, cut)
}

#[test]
fn tells_where_a_payload_is_cut(rt: HostRuntime) -> Result<(), AllocError> {
    let mut room = PayloadBuffer::new(rt.alloc())?;
    let bytes = pattern();
    let long = holding(
        &rt,
        disk(rt.alloc(), &[], &[], None)?,
        &[&bytes[..30], &bytes],
    );
    assert!(rt; long.image().len() == 8249);
    for place in FIRST..=LAST {
        let cut = &long.image()[..place];
        assert_read(
            &rt,
            &place,
            rt.alloc(),
            cut,
            &mut room,
            Err(OpenError::Damaged(51)),
        )?;
    }
    Ok(())
}

#[test]
fn reads_a_piece_at_once(rt: HostRuntime) -> Result<(), AllocError> {
    let mut room = PayloadBuffer::new(rt.alloc())?;
    let bytes = pattern();
    let payloads = vec![in rt.alloc(); bytes.as_slice(); 13]?;
    let kept = holding(&rt, disk(rt.alloc(), &[], &[], None)?, &payloads);
    assert_same(&rt, &"its length", &kept.image().len(), &106_578);
    // The 29th call would fail.
    let failing = disk(rt.alloc(), kept.image(), &[29], None)?;
    let read = read_back(&rt, failing, &mut room, &payloads);
    assert_same(&rt, &"the longest read", &read.longest_read(), &4096);
    Ok(())
}
