// A real file that is only read. It tells nothing of what it holds.
ghost use Rattle.std.specs.Prelude.{◌≡◌, ◌<◌, ◌≤◌, length, IfOk};
ghost use Rattle.io_traits.specs.Faults.{Rose};
ghost use Rattle.io_traits.specs.Silent.{not_honest, silent};

use crate::disk_host::read_all;
use io_traits::{Disk, Failed};
use std::fs::File;

/// An open file of the operating system that nothing changes, with a count of its faults. It reads as if it had been cut where it was
/// to be cut, and a write is a fault.
#[derive(Drop)]
pub struct HostDiskToRead {
    file: File,
    end: u64,
    faults: u64,
}

impl HostDiskToRead {
    /// A disk over an open file.
    pub fn new(file: File) -> HostDiskToRead
        ensures no_faults { ⟦<HostDiskToRead as Disk>⟧.faults result ≡ 0 }
    {
        HostDiskToRead {
            file,
            end: u64::MAX,
            faults: 0,
        }
    }

    fn fault(&mut self) -> Failed
        ensures rose { Rose self.old.faults self.new.faults }
        ensures later { self.old.faults ≤ self.new.faults }
    {
        self.faults = self.faults.saturating_add(1);
        Failed
    }

    // How many bytes from a place on may be read into a buffer of this length.
    fn most(&self, at: u64, len: usize) -> usize
        ensures { result ≤ len }
    {
        match usize::try_from(self.end.saturating_sub(at)) {
            Ok(left) if left < len => left,
            _ => len,
        }
    }
}

impl Disk for HostDiskToRead {
    ghost tells = { λ _. silent };

    ghost faults = { λ d. d.faults };

    fn len(&mut self) -> Result<u64, Failed> {
        match self.file.metadata() {
            Ok(data) if data.len() < self.end => Ok(data.len()),
            Ok(_) => Ok(self.end),
            Err(_) => Err(self.fault()),
        }
    }

    fn read_at(&mut self, at: u64, buf: &mut [u8]) -> Result<usize, Failed> {
        let most = self.most(at, buf.len());
        match read_all(&self.file, at, &mut buf[..most]) {
            Ok(n) => Ok(n),
            Err(_) => Err(self.fault()),
        }
    }

    fn write_at(&mut self, _at: u64, _bytes: &[u8]) -> Result<(), Failed> {
        Err(self.fault())
    }

    fn cut(&mut self, len: u64) -> Result<(), Failed> {
        if len < self.end {
            self.end = len;
        }
        Ok(())
    }

    // Nothing was changed.
    fn sync(&mut self) -> Result<(), Failed> {
        Ok(())
    }

    ghost reads_as_image = { λ d honest. not_honest honest };

    ghost bounded = { λ d honest. not_honest honest };

    ghost counts_now = { λ d t c honest le now. not_honest honest };

    ghost only_now = { λ d c honest since. not_honest honest };
}
