// Why a session ends early.
ghost use Rattle.std.specs.Prelude.{◌≡◌};
ghost use Rattle.log_session.specs.declared.stop.SessionStop.TheVariants.{Reading, Opening, Filing};

use log_machine::{FoundFault, OpenError};

/// Why the input wasn't read.
#[derive(Clone, Copy, Debug, PartialEq, Eq)]
pub enum ReadStop {
    /// A read failed.
    Read,
    /// The input has more bytes than may be read.
    TooLong,
    /// There is no memory for it.
    NoMemory,
}

/// Why the rows weren't filed to the last.
#[derive(Clone, Copy, Debug, PartialEq, Eq)]
pub enum FileStop {
    /// A write failed.
    Write,
    /// The disk refused a call. One entry may be undecided, which would stand at this position.
    DiskFault { undecided: Option<u32> },
    /// There is no memory.
    NoMemory,
}

/// Why a session ended before its input was answered.
#[derive(Clone, Copy, Debug, PartialEq, Eq)]
pub enum SessionStop {
    /// While the input was read.
    Reading(ReadStop),
    /// While the journal was opened.
    Opening(OpenError),
    /// While the rows were filed.
    Filing(FileStop),
}

/// Why a founding ended early.
#[derive(Clone, Copy, PartialEq, Eq)]
pub enum FoundStop {
    /// No list was founded.
    Founding(FoundFault),
    /// A list was founded, and the line that says so wasn't written whole.
    Write,
}

impl From<ReadStop> for SessionStop {
    ghost from_gives = { λ stop ended. ended ≡ Reading stop };

    fn from(stop: ReadStop) -> SessionStop {
        SessionStop::Reading(stop)
    }
}

impl From<OpenError> for SessionStop {
    ghost from_gives = { λ error ended. ended ≡ Opening error };

    fn from(error: OpenError) -> SessionStop {
        SessionStop::Opening(error)
    }
}

impl From<FileStop> for SessionStop {
    ghost from_gives = { λ stop ended. ended ≡ Filing stop };

    fn from(stop: FileStop) -> SessionStop {
        SessionStop::Filing(stop)
    }
}
