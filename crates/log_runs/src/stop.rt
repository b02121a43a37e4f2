// Why a run ends before its input is answered.
ghost use Rattle.std.specs.Prelude.{◌≡◌, ◌+◌, ◌≤◌, ◌++◌, codes, decimal, length};
ghost use Rattle.arrayvec.specs.ArrayString.{array_string_len};
ghost use Rattle.log_runs.specs.Statuses.{check_line as check_line_of, check_status as check_status_of, ended_check, ended_file, ended_found, file_line as file_line_of, found_line as found_line_of, found_status as found_status_of, open_line as open_line_of, read_line as read_line_of, read_status as read_status_of, session_line as session_line_of, session_status as session_status_of};

use arrayvec::ArrayString;
use itoa::Buffer;
use log_journal::OpenError;
use log_machine::FoundFault;
use log_session::{CheckStop, CheckTally, FileStop, FoundStop, ReadStop, SessionStop};

/// Why a run ends before its input is answered.
#[derive(Clone, Copy, PartialEq, Eq)]
pub enum RunStop {
    /// The words are no row of the program's.
    Usage,
    /// A founding ended early.
    Found(FoundStop),
    /// A session ended early.
    File(SessionStop),
    /// A check ended early.
    Check(CheckStop),
    /// A port failed.
    Socket,
}

impl RunStop {
    ghost use Rattle.log_runs.specs.Statuses.{fault_line, status_of};

    /// The status of the program.
    pub fn status(self) -> u8
        ensures { result ≡ status_of self }
    {
        match self {
            RunStop::Usage => 2,
            RunStop::Found(stop) => found_status(stop),
            RunStop::File(stop) => session_status(stop),
            RunStop::Check(stop) => check_status(stop),
            RunStop::Socket => 10,
        }
    }

    /// The last line of the program's text.
    pub fn line(self) -> ArrayString<40>
        ensures { result.bytes ≡ fault_line self }
    {
        match self {
            RunStop::Usage => text_line("fault usage\n"),
            RunStop::Found(stop) => found_line(stop),
            RunStop::File(stop) => session_line(stop),
            RunStop::Check(stop) => check_line(stop),
            RunStop::Socket => text_line("fault socket\n"),
        }
    }
}

/// How a run ended, by how its founding did.
pub fn ended_founding(ended: Result<(), FoundStop>) -> Result<(), RunStop>
    ensures { result ≡ ended_found ended }
{
    match ended {
        Ok(()) => Ok(()),
        Err(stop) => Err(RunStop::Found(stop)),
    }
}

/// How a run ended, by how its check did.
pub fn ended_checking(ended: Result<CheckTally, CheckStop>) -> Result<(), RunStop>
    ensures { result ≡ ended_check ended }
{
    match ended {
        Ok(_) => Ok(()),
        Err(stop) => Err(RunStop::Check(stop)),
    }
}

/// How a run ended, by how its session did.
pub fn ended_filing(ended: Result<(), SessionStop>) -> Result<(), RunStop>
    ensures { result ≡ ended_file ended }
{
    match ended {
        Ok(()) => Ok(()),
        Err(stop) => Err(RunStop::File(stop)),
    }
}

// The status of a founding that ended early.
fn found_status(stop: FoundStop) -> u8
    ensures { result ≡ found_status_of stop }
{
    match stop {
        FoundStop::Founding(FoundFault::Exists | FoundFault::NotJournal) => 6,
        FoundStop::Founding(FoundFault::DiskFault) => 5,
        FoundStop::Founding(FoundFault::NoMemory) => 9,
        FoundStop::Write => 4,
    }
}

// The status where the input wasn't read.
fn read_status(stop: ReadStop) -> u8
    ensures { result ≡ read_status_of stop }
{
    match stop {
        ReadStop::Read => 3,
        ReadStop::TooLong => 8,
        ReadStop::NoMemory => 9,
    }
}

// The status of a check that ended early.
fn check_status(stop: CheckStop) -> u8
    ensures { result ≡ check_status_of stop }
{
    match stop {
        CheckStop::Reading(stop) => read_status(stop),
        CheckStop::Write => 4,
        CheckStop::NoMemory => 9,
    }
}

// The status of a session that ended early.
fn session_status(stop: SessionStop) -> u8
    ensures { result ≡ session_status_of stop }
{
    match stop {
        SessionStop::Reading(stop) => read_status(stop),
        SessionStop::Opening(OpenError::NoOffice | OpenError::NotJournal) => 6,
        SessionStop::Opening(OpenError::OldVersion) => 6,
        SessionStop::Opening(OpenError::Damaged(_)) => 7,
        SessionStop::Opening(OpenError::DiskFault) => 5,
        SessionStop::Opening(OpenError::NoMemory) => 9,
        SessionStop::Filing(FileStop::Write) => 4,
        SessionStop::Filing(FileStop::DiskFault { .. }) => 5,
        SessionStop::Filing(FileStop::NoMemory) => 9,
    }
}

// The last line after a founding that ended early.
fn found_line(stop: FoundStop) -> ArrayString<40>
    ensures { result.bytes ≡ found_line_of stop }
{
    match stop {
        FoundStop::Founding(FoundFault::Exists) => text_line("fault office exists\n"),
        FoundStop::Founding(FoundFault::NotJournal) => text_line("fault not a journal\n"),
        FoundStop::Founding(FoundFault::DiskFault) => text_line("fault disk none\n"),
        FoundStop::Founding(FoundFault::NoMemory) => text_line("fault memory\n"),
        FoundStop::Write => text_line(""),
    }
}

// The last line where the input wasn't read.
fn read_line(stop: ReadStop) -> ArrayString<40>
    ensures { result.bytes ≡ read_line_of stop }
{
    match stop {
        ReadStop::Read => text_line("fault read\n"),
        ReadStop::TooLong => text_line("fault too long\n"),
        ReadStop::NoMemory => text_line("fault memory\n"),
    }
}

// The last line after a check that ended early.
fn check_line(stop: CheckStop) -> ArrayString<40>
    ensures { result.bytes ≡ check_line_of stop }
{
    match stop {
        CheckStop::Reading(stop) => read_line(stop),
        CheckStop::Write => text_line(""),
        CheckStop::NoMemory => text_line("fault memory\n"),
    }
}

// The last line after a session that ended early.
fn session_line(stop: SessionStop) -> ArrayString<40>
    ensures { result.bytes ≡ session_line_of stop }
{
    match stop {
        SessionStop::Reading(stop) => read_line(stop),
        SessionStop::Opening(error) => open_line(error),
        SessionStop::Filing(stop) => file_line(stop),
    }
}

// The last line where the journal couldn't be opened.
fn open_line(error: OpenError) -> ArrayString<40>
    ensures { result.bytes ≡ open_line_of error }
{
    match error {
        OpenError::NoOffice => text_line("fault no office\n"),
        OpenError::NotJournal => text_line("fault not a journal\n"),
        OpenError::OldVersion => text_line("fault old version\n"),
        OpenError::Damaged(place) => number_line("fault damaged ", place),
        OpenError::DiskFault => text_line("fault disk none\n"),
        OpenError::NoMemory => text_line("fault memory\n"),
    }
}

// The last line where rows weren't filed to the last.
fn file_line(stop: FileStop) -> ArrayString<40>
    ensures { result.bytes ≡ file_line_of stop }
{
    match stop {
        FileStop::Write => text_line(""),
        FileStop::DiskFault { undecided: None } => text_line("fault disk none\n"),
        FileStop::DiskFault {
            undecided: Some(position),
        } => number_line("fault disk ", u64::from(position)),
        FileStop::NoMemory => text_line("fault memory\n"),
    }
}

// A line without a number.
fn text_line(text: &str) -> ArrayString<40>
    requires { length text.now ≤ 20 }
    ensures { result.bytes ≡ text.now }
{
    let mut line = ArrayString::<40>::new();
    line.push_str(text);
    line
}

/// A line that ends with a number.
pub fn number_line(front: &str, number: u64) -> ArrayString<40>
    requires { length front.now ≤ 19 }
    ensures { result.bytes ≡ front.now ++ decimal number ++ codes "\n" }
{
    let mut line = ArrayString::<40>::new();
    line.push_str(front);
    let mut digits = Buffer::new();
    line.push_str(digits.format(number));
    line.push_str("\n");
    line
}
