//! The file of a journal, the folder in which it stands, and the files of desks.
use crate::host::HostReader;
use crate::streams::say;
use std::fs::{File, OpenOptions, TryLockError};
use std::io::ErrorKind;
use std::os::unix::fs::FileExt;
use std::path::Path;
use std::{fs, io};

/// Opens the journal's file, or makes an empty one.
pub fn open_journal(rt: &HostRuntime, path: &str) -> io::Result<File> {
    OpenOptions::new()
        .read(true)
        .write(true)
        .create(true)
        .truncate(false)
        .open(rt, path)
}

/// Takes the file for this run alone, until it ends. Where another run holds it, standard error says so.
pub fn hold(rt: &HostRuntime, file: &File) -> bool {
    is_held(rt, file.try_lock())
}

/// Keeps runs that may write the file from it until this one ends; others that only read it may run beside this one. Where a run that
/// may write it holds it, standard error says so.
pub fn hold_to_read(rt: &HostRuntime, file: &File) -> bool {
    is_held(rt, file.try_lock_shared())
}

// Whether the file was locked; else standard error says why not.
fn is_held(rt: &HostRuntime, locked: Result<(), TryLockError>) -> bool {
    match locked {
        Ok(()) => true,
        Err(TryLockError::WouldBlock) => {
            say(
                rt,
                "another run holds the journal: start this one again when that one has ended",
            );
            false
        }
        Err(TryLockError::Error(error)) => {
            let _ = eprintln!(rt; "the journal can't be held for this run alone: {error}");
            false
        }
    }
}

/// Whether an office may stand in the file: it has a head and a gate, and its first byte is 1.
pub fn is_born(file: &File) -> io::Result<bool> {
    let mut head = [0u8; 17];
    match file.read_exact_at(&mut head, 0) {
        Ok(()) => Ok(head[0] == 1),
        Err(error) if error.kind() == ErrorKind::UnexpectedEof => Ok(false),
        Err(error) => Err(error),
    }
}

/// Makes sure that the folder in which the file itself stands has it, where the system can say so. Links are followed.
pub fn keep_in_folder(rt: &HostRuntime, path: &str) -> io::Result<()> {
    let file = fs::canonicalize(rt, path)?;
    let folder = file.parent().unwrap_or(Path::new("/"));
    match File::open(rt, folder)?.sync_all() {
        Err(error) if error.kind() == ErrorKind::InvalidInput => Ok(()),
        synced => synced,
    }
}

/// Opens the file from which a desk reads its rows. Where it can't be, standard error says so.
pub fn open_input(rt: &HostRuntime, path: &str) -> Option<HostReader<File>> {
    match File::open(rt, path) {
        Ok(file) => Some(HostReader::new(file)),
        Err(error) => {
            let _ = eprintln!(rt; "{path} can't be opened: {error}");
            None
        }
    }
}
