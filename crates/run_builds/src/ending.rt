// How a run over two journals ends: its status and its last line.
ghost use Rattle.std.specs.Prelude.{◌≡◌, ◌≤◌, ◌++◌, length};
ghost use Rattle.arrayvec.specs.ArrayString.{array_string_len};
ghost use Rattle.log_runs.specs.Ends.{EndsWith};
ghost use Rattle.log_runs.specs.Statuses.{read_line as read_line_of, read_status as read_status_of};
ghost use Rattle.run_builds.specs.Ends.{amend_text, build_line as build_line_of, build_status as build_status_of, changes_shown, list_line as list_line_of, source_line as source_line_of, source_status as source_status_of};

use arrayvec::ArrayString;
use io_traits::Sink;
use log_journal::FoundError;
use log_runs::{WRITE_FAILED, number_line, put};
use log_session::ReadStop;

/// Why the source gives no list.
#[derive(Clone, Copy, PartialEq, Eq)]
pub enum SourceFault {
    /// There is no office in it.
    NoOffice,
    /// It isn't a journal.
    NotJournal,
    /// It is a journal of version 2, where one of version 1 is wanted.
    NewVersion,
    /// It is a journal of version 1, where one of version 2 is wanted.
    OldVersion,
    /// The record whose gate stands at this place isn't one of a legal list.
    Damaged(u64),
    /// Its disk refused a call.
    DiskFault,
    /// There is no memory for its list.
    NoMemory,
}

/// Why the target wasn't built.
#[derive(Clone, Copy, PartialEq, Eq)]
pub enum BuildFault {
    /// It was refused, or its disk refused a call.
    Target(FoundError),
    /// There is no memory for a filing's bytes. The target had no call.
    NoMemory,
}

/// How an upgrade ended, before its last line was written.
#[derive(Clone, Copy, PartialEq, Eq)]
pub enum UpgradeEnd {
    /// The source gave no list. The target had no call.
    Source(SourceFault),
    /// The target wasn't built.
    Target(BuildFault),
    /// All filings were copied, so many.
    Copied(u64),
}

/// How an amendment ended, before its text was written.
#[derive(Clone, Copy, PartialEq, Eq)]
pub enum AmendEnd {
    /// The corrections weren't read. No disk had a call.
    Input(ReadStop),
    /// The source gave no list. The target had no call.
    Source(SourceFault),
    /// There is no memory for the new list. The target had no call.
    NoMemory,
    /// A row is no correction that fits, or a filing of the new list doesn't stand. The target had no call.
    NotMade,
    /// The target wasn't built.
    Target(BuildFault),
    /// The new list was built.
    Made,
}

/// How a comparison ended, before its text was written.
#[derive(Clone, Copy, PartialEq, Eq)]
pub enum ChangesEnd {
    /// The old journal gave no list.
    Old(SourceFault),
    /// The new journal gave no list.
    New(SourceFault),
    /// There is no memory for the text.
    NoMemory,
    /// The text was made.
    Told,
}

impl UpgradeEnd {
    ghost use Rattle.run_builds.specs.Ends.{status_of, line_of};

    /// The status of the program.
    pub fn status(self) -> u8
        ensures { result ≡ status_of self }
    {
        match self {
            UpgradeEnd::Source(fault) => source_status(fault),
            UpgradeEnd::Target(fault) => build_status(fault),
            UpgradeEnd::Copied(_) => 0,
        }
    }

    /// The last line of the program's text.
    pub fn line(self) -> ArrayString<40>
        ensures { result.bytes ≡ line_of self }
    {
        match self {
            UpgradeEnd::Source(fault) => source_line(fault),
            UpgradeEnd::Target(fault) => build_line(fault),
            UpgradeEnd::Copied(count) => number_line("copied ", count),
        }
    }

    /// Writes the last line, and gives the status: that of a failed write where the line can't be written whole.
    pub fn tell<K: Sink>(self, out: &mut K) -> u8
        ensures { EndsWith K.Sink (line_of self) (status_of self) out.old out.new result }
    {
        match put(out, self.line().as_bytes()) {
            Ok(()) => self.status(),
            Err(_) => WRITE_FAILED,
        }
    }
}

impl AmendEnd {
    ghost use Rattle.run_builds.specs.Ends.{amend_line, amend_status};

    /// The status of the program.
    pub fn status(self) -> u8
        ensures { result ≡ amend_status self }
    {
        match self {
            AmendEnd::Input(stop) => read_status(stop),
            AmendEnd::Source(fault) => source_status(fault),
            AmendEnd::NoMemory => 9,
            AmendEnd::NotMade => 1,
            AmendEnd::Target(fault) => build_status(fault),
            AmendEnd::Made => 0,
        }
    }

    /// The line of a fault.
    pub fn line(self) -> ArrayString<40>
        ensures { result.bytes ≡ amend_line self }
    {
        match self {
            AmendEnd::Input(stop) => read_line(stop),
            AmendEnd::Source(fault) => source_line(fault),
            AmendEnd::NoMemory => text_line("fault memory\n"),
            AmendEnd::Target(fault) => build_line(fault),
            AmendEnd::NotMade | AmendEnd::Made => text_line(""),
        }
    }

    /// Writes the text that tells what becomes of the list, or the line of a fault, and gives the status: that of a failed write where it
    /// can't be written whole.
    pub fn tell<K: Sink>(self, text: &[u8], out: &mut K) -> u8
        ensures { EndsWith K.Sink (amend_text self text.now) (amend_status self) out.old out.new result }
    {
        match self {
            AmendEnd::NotMade | AmendEnd::Made => put_last(text, self.status(), out),
            _ => put_last(self.line().as_bytes(), self.status(), out),
        }
    }
}

impl ChangesEnd {
    ghost use Rattle.run_builds.specs.Ends.{changes_line, changes_status};

    /// The status of the program.
    pub fn status(self) -> u8
        ensures { result ≡ changes_status self }
    {
        match self {
            ChangesEnd::Old(fault) | ChangesEnd::New(fault) => source_status(fault),
            ChangesEnd::NoMemory => 9,
            ChangesEnd::Told => 0,
        }
    }

    /// The lines of a fault.
    pub fn line(self) -> ArrayString<64>
        ensures { result.bytes ≡ changes_line self }
    {
        match self {
            ChangesEnd::Old(fault) => fault_line("in the old journal\n", fault),
            ChangesEnd::New(fault) => fault_line("", fault),
            ChangesEnd::NoMemory => long_line("fault memory\n"),
            ChangesEnd::Told => long_line(""),
        }
    }

    /// Writes the text that tells what differs, or the lines of a fault, and gives the status: that of a failed write where it can't
    /// be written whole.
    pub fn tell<K: Sink>(self, text: &[u8], out: &mut K) -> u8
        ensures { EndsWith K.Sink (changes_shown self text.now) (changes_status self) out.old out.new result }
    {
        match self {
            ChangesEnd::Told => put_last(text, self.status(), out),
            _ => put_last(self.line().as_bytes(), self.status(), out),
        }
    }
}

// Writes the last text of a run, and gives its status: that of a failed write where it can't be written whole.
fn put_last<K: Sink>(text: &[u8], status: u8, out: &mut K) -> u8
    ensures { EndsWith K.Sink text.now status out.old out.new result }
{
    match put(out, text) {
        Ok(()) => status,
        Err(_) => WRITE_FAILED,
    }
}

// The status where the corrections weren't read.
fn read_status(stop: ReadStop) -> u8
    ensures { result ≡ read_status_of stop }
{
    match stop {
        ReadStop::Read => 3,
        ReadStop::TooLong => 8,
        ReadStop::NoMemory => 9,
    }
}

// The status where the source gives no list.
fn source_status(fault: SourceFault) -> u8
    ensures { result ≡ source_status_of fault }
{
    match fault {
        SourceFault::NoOffice | SourceFault::NotJournal => 6,
        SourceFault::NewVersion | SourceFault::OldVersion => 6,
        SourceFault::Damaged(_) => 7,
        SourceFault::DiskFault => 5,
        SourceFault::NoMemory => 9,
    }
}

// The status where the target wasn't built.
fn build_status(fault: BuildFault) -> u8
    ensures { result ≡ build_status_of fault }
{
    match fault {
        BuildFault::Target(FoundError::Exists | FoundError::NotJournal) => 6,
        BuildFault::Target(FoundError::DiskFault) => 5,
        BuildFault::NoMemory => 9,
    }
}

// The last line where the corrections weren't read.
fn read_line(stop: ReadStop) -> ArrayString<40>
    ensures { result.bytes ≡ read_line_of stop }
{
    match stop {
        ReadStop::Read => text_line("fault read\n"),
        ReadStop::TooLong => text_line("fault too long\n"),
        ReadStop::NoMemory => text_line("fault memory\n"),
    }
}

// The last line where the source gives no list.
fn source_line(fault: SourceFault) -> ArrayString<40>
    ensures { result.bytes ≡ source_line_of fault }
{
    match fault {
        SourceFault::NoOffice => text_line("fault no office\n"),
        SourceFault::NotJournal => text_line("fault not a journal\n"),
        SourceFault::NewVersion => text_line("fault new version\n"),
        SourceFault::OldVersion => text_line("fault old version\n"),
        SourceFault::Damaged(place) => number_line("fault damaged ", place),
        SourceFault::DiskFault => text_line("fault disk source\n"),
        SourceFault::NoMemory => text_line("fault memory\n"),
    }
}

// The line of a journal that gives no list, behind a line.
fn fault_line(front: &str, fault: SourceFault) -> ArrayString<64>
    requires { length front.now ≤ 20 }
    ensures { result.bytes ≡ front.now ++ list_line_of fault }
{
    let mut line = long_line(front);
    line.push_str(list_line(fault).as_str());
    line
}

// The line of a journal that gives no list.
fn list_line(fault: SourceFault) -> ArrayString<40>
    ensures { result.bytes ≡ list_line_of fault }
{
    match fault {
        SourceFault::DiskFault => text_line("fault disk none\n"),
        _ => source_line(fault),
    }
}

// A line without a number, with room behind it.
fn long_line(text: &str) -> ArrayString<64>
    requires { length text.now ≤ 20 }
    ensures { result.bytes ≡ text.now }
{
    let mut line = ArrayString::<64>::new();
    line.push_str(text);
    line
}

// The last line where the target wasn't built.
fn build_line(fault: BuildFault) -> ArrayString<40>
    ensures { result.bytes ≡ build_line_of fault }
{
    match fault {
        BuildFault::Target(FoundError::Exists) => text_line("fault office exists\n"),
        BuildFault::Target(FoundError::NotJournal) => text_line("fault target\n"),
        BuildFault::Target(FoundError::DiskFault) => text_line("fault disk target\n"),
        BuildFault::NoMemory => text_line("fault memory\n"),
    }
}

// A line without a number.
fn text_line(text: &str) -> ArrayString<40>
    requires { length text.now ≤ 20 }
    ensures { result.bytes ≡ text.now }
{
    let mut line = ArrayString::<40>::new();
    line.push_str(text);
    line
}
