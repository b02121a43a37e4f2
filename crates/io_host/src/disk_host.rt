// A real file. It tells nothing of what it holds.
ghost use Rattle.std.specs.Prelude.{◌≡◌, ◌<◌, ◌≤◌, length, IfOk};
ghost use Rattle.io_traits.specs.Faults.{Rose};
ghost use Rattle.io_traits.specs.Silent.{not_honest, silent};

use crate::retried::{read_some_at, write_some_at};
use io_traits::{Disk, Failed};
use std::fs::{File, metadata};
use std::io;
use std::os::unix::fs::MetadataExt;

/// An open file of the operating system, with a count of its faults. Of one that has a path a sync fails where another file, or none,
/// stands there by now.
#[derive(Drop)]
pub struct HostDisk {
    file: File,
    name: Option<Name>,
    faults: u64,
}

// The path of a file, and by what it is looked up.
#[derive(Drop)]
struct Name {
    rt: HostRuntime,
    path: String,
}

impl Name {
    // Looks up whether the path leads to this file; else that is an error.
    fn check(&self, file: &File) -> io::Result<()> {
        let (there, open) = (metadata(&self.rt, self.path.as_str())?, file.metadata()?);
        if there.dev() == open.dev() && there.ino() == open.ino() {
            Ok(())
        } else {
            Err(io::ErrorKind::NotFound.into())
        }
    }
}

/// Reads until the buffer is full or the file ends.
pub fn read_all(file: &File, at: u64, buf: &mut [u8]) -> io::Result<usize>
    ensures { IfOk result (λ n. n ≤ length buf.old) }
{
    let mut done = 0;
    while done < buf.len() {
        let n = read_some_at(file, at.saturating_add(done as u64), &mut buf[done..])?;
        if n == 0 {
            break;
        }
        done += n;
    }
    Ok(done)
}

// Writes all the bytes.
fn write_all(file: &File, at: u64, bytes: &[u8]) -> io::Result<()> {
    let mut done = 0;
    while done < bytes.len() {
        let n = write_some_at(file, at.saturating_add(done as u64), &bytes[done..])?;
        if n == 0 {
            return Err(io::ErrorKind::WriteZero.into());
        }
        done += n;
    }
    Ok(())
}

impl HostDisk {
    /// A disk over an open file.
    pub fn new(file: File) -> HostDisk
        ensures no_faults { ⟦<HostDisk as Disk>⟧.faults result ≡ 0 }
    {
        HostDisk {
            file,
            name: None,
            faults: 0,
        }
    }

    /// A disk over a file that was opened at a path. What is synced to it is found at that path.
    pub fn at_path(rt: &HostRuntime, file: File, path: String) -> HostDisk
        ensures no_faults { ⟦<HostDisk as Disk>⟧.faults result ≡ 0 }
    {
        HostDisk {
            file,
            name: Some(Name { rt: *rt, path }),
            faults: 0,
        }
    }

    // Syncs, and looks whether the file is still that of its path.
    fn sync_and_look(&self) -> io::Result<()> {
        self.file.sync_data()?;
        match &self.name {
            Some(name) => name.check(&self.file),
            None => Ok(()),
        }
    }

    fn fault(&mut self) -> Failed
        ensures rose { Rose self.old.faults self.new.faults }
        ensures later { self.old.faults ≤ self.new.faults }
    {
        self.faults = self.faults.saturating_add(1);
        Failed
    }
}

impl Disk for HostDisk {
    ghost tells = { λ _. silent };

    ghost faults = { λ d. d.faults };

    fn len(&mut self) -> Result<u64, Failed> {
        match self.file.metadata() {
            Ok(data) => Ok(data.len()),
            Err(_) => Err(self.fault()),
        }
    }

    fn read_at(&mut self, at: u64, buf: &mut [u8]) -> Result<usize, Failed> {
        match read_all(&self.file, at, buf) {
            Ok(n) => Ok(n),
            Err(_) => Err(self.fault()),
        }
    }

    fn write_at(&mut self, at: u64, bytes: &[u8]) -> Result<(), Failed> {
        match write_all(&self.file, at, bytes) {
            Ok(()) => Ok(()),
            Err(_) => Err(self.fault()),
        }
    }

    fn cut(&mut self, len: u64) -> Result<(), Failed> {
        match self.file.set_len(len) {
            Ok(()) => Ok(()),
            Err(_) => Err(self.fault()),
        }
    }

    // The bytes and the length are on the device then, which is all that a read needs; the times of the file may not be. Who opens
    // the path finds them.
    fn sync(&mut self) -> Result<(), Failed> {
        match self.sync_and_look() {
            Ok(()) => Ok(()),
            Err(_) => Err(self.fault()),
        }
    }

    ghost reads_as_image = { λ d honest. not_honest honest };

    ghost bounded = { λ d honest. not_honest honest };

    ghost counts_now = { λ d t c honest le now. not_honest honest };

    ghost only_now = { λ d c honest since. not_honest honest };
}
