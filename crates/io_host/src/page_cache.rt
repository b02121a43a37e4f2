//! A journal's file is taken for one run, and what Linux keeps of it in memory is made true: what is read next is what the medium has.
//!
//! Where a device loses a write, Linux tells so once: the sync that waits for it fails. Then it takes the page for written. Reads go
//! on showing what was lost, and further syncs succeed. A run that meets the fault writes again what it acknowledges later. A run
//! that begins after it can't know of the fault, and would take for kept what only the memory of the machine has.
//!
//! Therefore it first lets all pages of the file go from memory, so that they are read from the medium. Linux keeps a page that
//! another program reads or has mapped at that moment, and says nothing of it. So the places that an earlier run may have written and
//! not kept, the first page and the last ones, are then written again as they read, and synced: what stays in memory gets to the
//! medium, and of the others nothing changes.
use crate::files::{hold, hold_to_read};
use crate::retried::read_some_at;
use std::fs::File;
use std::io;
use std::os::fd::AsRawFd;
use std::os::unix::fs::FileExt;

// What is written again at once.
const PAGE: usize = 4096;

// The last pages that are written again. What a run has not kept is behind the last gate that was kept: a record of 8,197 bytes at
// most, one that was written ahead, and 4,096 bytes by which the file was made longer.
const LAST_PAGES: u64 = 16;

// How each journal begins: it is born, and has this name. No other file is written.
const FRONT: [u8; 9] = *b"\x01AIDPELL1";

/// Takes the file for this run alone, until it ends, and makes what the memory of the machine has of it what the medium has. Where
/// either can't be done, standard error says so.
pub fn take(rt: &HostRuntime, file: &File) -> bool {
    hold(rt, file) && said(rt, forget(file).and_then(|_| write_again(file)))
}

/// The same of a file that is only read: other runs that only read it may run beside this one.
pub fn take_to_read(rt: &HostRuntime, file: &File) -> bool {
    hold_to_read(rt, file) && said(rt, forget(file))
}

// Whether that was done; else standard error says why not.
fn said(rt: &HostRuntime, done: io::Result<()>) -> bool {
    match done {
        Ok(()) => true,
        Err(error) => {
            let _ = eprintln!(rt; "the journal can't be synced and read from its disk: {error}");
            false
        }
    }
}

// Lets all pages go from memory. What is written and not yet on the medium is synced first, since such pages can't be let go.
fn forget(file: &File) -> io::Result<()> {
    file.sync_all()?;
    match libc::posix_fadvise(file.as_raw_fd(), 0, 0, libc::POSIX_FADV_DONTNEED) {
        0 => Ok(()),
        error => Err(io::Error::from_raw_os_error(error)),
    }
}

// Whether a journal begins so.
fn is_journal(file: &File) -> io::Result<bool> {
    let mut front = [0u8; 9];
    let read = read_some_at(file, 0, &mut front)?;
    Ok(read == front.len() && front == FRONT)
}

// Writes a page again as it reads.
fn write_page(file: &File, at: u64) -> io::Result<()> {
    let mut page = [0u8; PAGE];
    let read = read_some_at(file, at, &mut page)?;
    file.write_all_at(&page[..read], at)
}

// Writes the first page and the last ones of a journal again, and syncs them.
fn write_again(file: &File) -> io::Result<()> {
    if !is_journal(file)? {
        return Ok(());
    }
    let pages = file.metadata()?.len() / PAGE as u64;
    write_page(file, 0)?;
    for page in pages.saturating_sub(LAST_PAGES).max(1)..=pages {
        write_page(file, page * PAGE as u64)?;
    }
    file.sync_all()
}
