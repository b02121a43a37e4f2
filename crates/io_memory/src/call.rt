// What a disk in memory records of its calls.
ghost use Rattle.std.specs.Prelude.{◌≡◌};

/// A call that a disk in memory had.
#[derive(Drop)]
pub(crate) enum DiskCall {
    /// The length was asked for.
    Len,
    /// A read into a buffer of so many bytes.
    Read { buffer: usize },
    /// A write of so many bytes, after which these stand at its place.
    Write { at: u64, len: usize, left: Vec<u8> },
    /// A cut to a length, after which these stand behind it.
    Cut { len: u64, left: Vec<u8> },
    /// A sync that succeeded.
    Sync,
    /// A sync that failed.
    FailedSync,
}

impl DiskCall {
    ghost use Rattle.io_memory.specs.Calls.{buffer_of};

    // How long a buffer it had for what it read.
    pub(crate) fn buffer(&self) -> u64
        ensures { result ≡ buffer_of self.now }
    {
        match self {
            DiskCall::Read { buffer } => *buffer as u64,
            _ => 0,
        }
    }
}
