//! Payloads of a journal in a file.
ghost use Rattle.std.specs.Prelude.{◌≡◌, ◌+◌, ◌<◌, ◌^◌, OnOk};
ghost use Rattle.log_journal.specs.Journal.{IsDecided, journal_count};
ghost use Rattle.log_journal.specs.Opening.{HasEnded};

use io_host::HostDisk;
use io_traits::PayloadBuffer;
use log_journal::{Header, Journal, OpenError, Opening, PutError, found, recover};
use std::fs::OpenOptions;
use std::io;

const HEADER: Header = Header {
    name: *b"AIDPELL1",
    version: 1,
    old: None,
};

// A payload.
const PAYLOAD: [u8; 30] = [7; 30];

/// Founds a journal in a file, and puts so many payloads.
pub fn fill(rt: &HostRuntime, path: &str, count: u32) -> io::Result<()> {
    let file = OpenOptions::new()
        .read(true)
        .write(true)
        .create(true)
        .truncate(true)
        .open(rt, path)?;
    let Ok(mut journal) = found(HostDisk::new(file), HEADER) else {
        return Err(io::ErrorKind::Other.into());
    };
    match put_all(&mut journal, count) {
        Ok(()) => Ok(()),
        Err(_) => Err(io::ErrorKind::Other.into()),
    }
}

// Puts so many payloads.
fn put_all(journal: &mut Journal<HostDisk>, count: u32) -> Result<(), PutError>
    requires decided { IsDecided journal.old }
    requires empty { journal_count journal.old ≡ 0 }
    ensures { OnOk result (journal_count journal.new ≡ count) }
{
    for _ in 0..count {
        journal.put(&PAYLOAD)?;
    }
    Ok(())
}

/// Opens the journal of a file, and answers how many payloads stand in it.
pub fn count_of(rt: &HostRuntime, path: &str) -> io::Result<u32> {
    let file = OpenOptions::new().read(true).write(true).open(rt, path)?;
    let mut room = PayloadBuffer::new(rt.alloc())?;
    let Ok(mut opening) = recover(HostDisk::new(file), HEADER) else {
        return Err(io::ErrorKind::Other.into());
    };
    let Ok(count) = read_all(&mut opening, &mut room) else {
        return Err(io::ErrorKind::Other.into());
    };
    match opening.ready() {
        Ok(_journal) => Ok(count),
        Err((_error, _disk)) => Err(io::ErrorKind::Other.into()),
    }
}

// Reads every payload, and answers how many there are.
fn read_all(opening: &mut Opening<HostDisk>, room: &mut PayloadBuffer) -> Result<u32, OpenError>
    ensures { OnOk result (HasEnded opening.new) }
{
    for count in 0..u32::MAX {
        if opening.next(room)?.is_none() {
            return Ok(count);
        }
    }
    Err(OpenError::NoMemory)
}
