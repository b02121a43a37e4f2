// A file in memory that counts its syncs and tells nothing of itself.
ghost use Rattle.std.specs.Prelude.{◌≡◌, ◌≤◌};
ghost use Rattle.io_traits.specs.Faults.{Rose};

use io_traits::{Disk, Failed};

#[derive(Drop)]
pub(crate) struct CountingDisk {
    bytes: Vec<u8>,
    faults: u64,
    syncs: u64,
}

impl CountingDisk {
    // A file with these bytes.
    pub(crate) fn new(bytes: Vec<u8>) -> Self {
        CountingDisk {
            bytes,
            faults: 0,
            syncs: 0,
        }
    }

    // Its bytes.
    pub(crate) fn image(&self) -> &[u8] {
        &self.bytes
    }

    // How often it was synced.
    pub(crate) fn syncs(&self) -> u64 {
        self.syncs
    }

    fn fault(&mut self) -> Failed
        ensures rose { Rose self.old.faults self.new.faults }
        ensures later { self.old.faults ≤ self.new.faults }
    {
        self.faults = self.faults.saturating_add(1);
        Failed
    }
}

impl Disk for CountingDisk {
    ghost use Rattle.io_traits.specs.Silent.{not_honest, silent};

    ghost tells = { λ _. silent };

    ghost faults = { λ f. f.faults };

    fn len(&mut self) -> Result<u64, Failed> {
        Ok(self.bytes.len() as u64)
    }

    fn read_at(&mut self, at: u64, buf: &mut [u8]) -> Result<usize, Failed> {
        let Some(rest) = self.bytes.get(at as usize..) else {
            return Ok(0);
        };
        let n = rest.len().min(buf.len());
        buf[..n].copy_from_slice(&rest[..n]);
        Ok(n)
    }

    fn write_at(&mut self, at: u64, bytes: &[u8]) -> Result<(), Failed> {
        let from = self.bytes.len().min(at as usize);
        let over = (self.bytes.len() - from).min(bytes.len());
        let kept = &mut self.bytes.as_mut_slice()[from..];
        kept[..over].copy_from_slice(&bytes[..over]);
        match self.bytes.extend_from_slice(&bytes[over..]) {
            Ok(()) => Ok(()),
            Err(_) => Err(self.fault()),
        }
    }

    fn cut(&mut self, len: u64) -> Result<(), Failed> {
        self.bytes.truncate(len as usize);
        Ok(())
    }

    fn sync(&mut self) -> Result<(), Failed> {
        self.syncs = self.syncs.saturating_add(1);
        Ok(())
    }

    ghost reads_as_image = { λ d honest. not_honest honest };

    ghost bounded = { λ d honest. not_honest honest };

    ghost counts_now = { λ d t c honest le now. not_honest honest };

    ghost only_now = { λ d c honest since. not_honest honest };
}
