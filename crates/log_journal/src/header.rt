// The header of a journal file.
ghost use Rattle.std.specs.Prelude.{◌≡◌, ◌++◌, [], ◌∷◌, length};

/// What the front of a journal file says of it. A file with another header isn't a journal of this one.
#[derive(Clone, Copy, PartialEq, Eq)]
pub struct Header {
    /// The name of the form of its payloads.
    pub name: [u8; 8],
    /// The version of that form.
    pub version: u32,
    /// The version before, which is told apart: a file of it isn't opened, and has an answer of its own.
    pub old: Option<u32>,
    ghost name_size: { length name ≡ 8 },
}

impl Header {
    ghost use Rattle.log_journal.specs.Header.{header_bytes};

    // The file of a journal without payloads: the header and a closed gate.
    pub(crate) fn empty_file(self) -> [u8; 17]
        ensures { result ≡ header_bytes self ++ 0 ∷ [] }
    {
        let mut file = [0; 17];
        file[0] = 1;
        file[1..9].copy_from_slice(&self.name);
        file[9..13].copy_from_slice(&self.version.to_le_bytes());
        file
    }
}
