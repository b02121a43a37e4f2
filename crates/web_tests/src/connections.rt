// Sessions over one connection: what is written over any cutting of its bytes, the answers of a worked year, what a fault leaves,
// that each answer is written before more is read, and a session over a socket.
ghost use Rattle.std.specs.Prelude.{◌≡◌, ◌≤◌, None, IfSome};
ghost use Rattle.io_traits.specs.Faults.{Rose};

use crate::runs::{assert_runs, with_book, with_school};
use aid_stamps::Stamp;
use io_host::HostConnection;
use io_memory::{MemoryConnection, MemoryDisk};
use io_traits::Failed;
use log_desks::{SharedList, Since};
use log_lock::TicketLock;
use log_machine::{Log, RowName};
use office_log::{OfficeMachine, StampedOfficeMachine};
use run_server::OfficeApi;
use specimen::{NINE_LINES, NINE_ROWS, YEAR_LINES, YEAR_ROWS};
use std::alloc::{AllocError, Global};
use std::io;
use std::io::{Read, Write};
use std::net::{Ipv4Addr, Shutdown, TcpListener, TcpStream};
use std::process::Abort;
use std::sync::Wait;
use std::test::Fail;
use std::thread::join;
use std::time::Clock;
use web_session::{Connection, End};
use web_workers::serve_desk;
use whole_runs::disk;

// A request that files a student's earlier use, and its answers where one filing stands and where it stands itself.
pub(crate) const FILING: &str = "\
POST /desks/0/filings HTTP/1.1\r\n\
Host: localhost\r\n\
Content-Length: 57\r\n\
\r\n\
{\"kind\":\"prior\",\"number\":2,\"student\":5001,\"units\":550000}";

pub(crate) const CREATED: &str = "\
HTTP/1.1 201 Created\r\n\
Content-Length: 62\r\n\
Content-Type: application/json\r\n\
\r\n\
{\"answer\":\"accepted\",\"front\":1,\"outcome\":\"noted\",\"position\":2}";

pub(crate) const AGAIN: &str = "\
HTTP/1.1 200 OK\r\n\
Content-Length: 59\r\n\
Content-Type: application/json\r\n\
\r\n\
{\"answer\":\"again\",\"front\":2,\"outcome\":\"noted\",\"position\":2}";

// The list of the office in a file.
fn opened(alloc: Global, disk: MemoryDisk) -> Option<Log<MemoryDisk, StampedOfficeMachine>>
    ensures { IfSome result (λ kept. kept.pending ≡ None) }
{
    match Log::<MemoryDisk, StampedOfficeMachine>::recover(alloc, disk) {
        Ok(kept) => Some(kept),
        Err(_) => None,
    }
}

// Of the moments of the disk nothing is asked here. No value of it is made.
struct AnyMoment;

impl Since for AnyMoment {
    ghost moment = { 0 };

    ghost already = { λ t file. Unit {0} };
}

// How a session over a connection ends, for the office in a file, if it is opened.
fn serve<L: Connection, H: Wait>(
    rt: &H,
    alloc: Global,
    disk: MemoryDisk,
    link: &mut L,
) -> Option<End> {
    let kept = opened(alloc, disk)?;
    let shared = SharedList::<MemoryDisk, StampedOfficeMachine, AnyMoment>::new(alloc, kept);
    let Ok((turns, handle)) = TicketLock::new(alloc, shared, 1) else {
        return None;
    };
    let by = RowName { desk: 1, row: 1 };
    let (handle, end) = serve_desk::<MemoryDisk, OfficeMachine, AnyMoment, OfficeApi, L, H>(
        rt,
        alloc,
        &turns,
        handle,
        by,
        Stamp::plain(),
        link,
    );
    turns.close(handle);
    Some(end)
}

// Whatever the pieces are in which its bytes come, a connection's session ends so and writes this.
fn assert_session(
    rt: &(impl Abort + Wait),
    alloc: Global,
    image: &[u8],
    bytes: &[u8],
    end: End,
    text: &[u8],
) -> Result<(), Fail> {
    for piece in [1, 7, 1_000_000] {
        assert!(rt; piece > 0);
        let none = Vec::new(alloc);
        let link = MemoryConnection::new(alloc, bytes.to_vec(alloc)?, none, Vec::new(alloc));
        let mut link = link.in_pieces(piece);
        let ended = serve(rt, alloc, disk(alloc, image, &[], None)?, &mut link);
        assert_eq!(rt; link.text(), text);
        assert_eq!(rt; ended, Some(end));
    }
    Ok(())
}

// One text behind the other.
fn joined(alloc: Global, one: &str, other: &str) -> Result<Vec<u8>, AllocError> {
    let mut bytes = one.as_bytes().to_vec(alloc)?;
    bytes.extend_from_slice(other.as_bytes())?;
    Ok(bytes)
}

#[test]
fn requests_are_answered(rt: HostRuntime) -> Result<(), Fail> {
    let alloc = rt.alloc();
    let school = with_school(&rt, alloc)?;
    for (bytes, end, text) in REQUESTS {
        assert_session(
            &rt,
            alloc,
            school.image(),
            bytes.as_bytes(),
            end,
            text.as_bytes(),
        )?;
    }
    Ok(())
}

#[test]
fn a_filing_twice_on_one_connection(rt: HostRuntime) -> Result<(), Fail> {
    let alloc = rt.alloc();
    let school = with_school(&rt, alloc)?;
    let twice = joined(alloc, FILING, FILING)?;
    let answers = joined(alloc, CREATED, AGAIN)?;
    assert_session(&rt, alloc, school.image(), &twice, End::Closed, &answers)
}

#[test]
fn the_longest_body_is_no_filing(rt: HostRuntime) -> Result<(), Fail> {
    let alloc = rt.alloc();
    let school = with_school(&rt, alloc)?;
    let longest = longest(alloc)?;
    let text = NO_FILING.as_bytes();
    assert_session(&rt, alloc, school.image(), &longest, End::Closed, text)
}

// A request with the longest body.
fn longest(alloc: Global) -> Result<Vec<u8>, AllocError> {
    let head = b"POST /desks/0/filings HTTP/1.1\r\nContent-Length: 65536\r\n\r\n";
    let mut bytes = head.to_vec(alloc)?;
    bytes.resize(head.len() + 65_536, b' ')?;
    Ok(bytes)
}

const NO_FILING: &str = "\
HTTP/1.1 400 Bad Request\r\n\
Content-Length: 13\r\n\
Content-Type: application/json\r\n\
\r\n\
{\"error\":400}";

// A connection's bytes, how its session ends, and what is written.
const REQUESTS: [(&str, End, &str); 15] = [
    ("", End::Closed, ""),
    ("\r\n\n\r", End::Closed, ""),
    (
        "GET / HTTP/1.1\r\na b: 1\r\n\r\n",
        End::Rejected,
        "\
HTTP/1.1 400 Bad Request\r\n\
Content-Length: 13\r\n\
Content-Type: application/json\r\n\
Connection: close\r\n\
\r\n\
{\"error\":400}",
    ),
    ("GET / HTTP/1.1\r\na b: 1\r\n", End::Cut, ""),
    (
        "POST /desks/0/filings HTTP/1.1\r\nContent-Length: 2\r\n\r\n{",
        End::Cut,
        "",
    ),
    (
        "GET /desks/1000000/quote/1/2025/1 HTTP/1.1\r\n\r\n",
        End::Closed,
        "\
HTTP/1.1 404 Not Found\r\n\
Content-Length: 13\r\n\
Content-Type: application/json\r\n\
\r\n\
{\"error\":404}",
    ),
    (
        "DELETE /standing/1/2025 HTTP/1.1\r\n\r\n",
        End::Closed,
        "\
HTTP/1.1 405 Method Not Allowed\r\n\
Content-Length: 13\r\n\
Content-Type: application/json\r\n\
\r\n\
{\"error\":405}",
    ),
    (
        "GET /standing/1/2025 HTTP/1.1\n\n",
        End::Closed,
        "\
HTTP/1.1 200 OK\r\n\
Content-Length: 117\r\n\
Content-Type: application/json\r\n\
\r\n\
{\"answer\":\"standing\",\"formula\":\"A\",\"front\":1,\"paid\":0,\"sai\":0,\"scheduled\":0,\"transaction\":0,\"used\":0,\"way\":\"nothing\"}",
    ),
    (
        "POST /desks/0/filings HTTP/1.1\r\nContent-Length: 2\r\n\r\n[]",
        End::Closed,
        "\
HTTP/1.1 400 Bad Request\r\n\
Content-Length: 13\r\n\
Content-Type: application/json\r\n\
\r\n\
{\"error\":400}",
    ),
    (
        "\
POST /desks/0/filings HTTP/1.1\r\n\
Content-Length: 409\r\n\
\r\n\
{\"kind\":[[[[[[[[[[[[[[[[[[[[[[[[[[[[[[[[[[[[[[[[[[[[[[[[[[[[[[[[[[[[[[[[[[[[[[[[[[[[[[[[[[[[[[[[[[[[[[[[[[[[[[[[[[[[[[[[[[[[[[[[[[[[[[[[[[[[[[[[[[[[[[[[[[[[[[[[[[[[[[[[[[[[[[[[[[[[[[[[[[[[[[[[[[[[[[[[[[[[[[[[]]]]]]]]]]]]]]]]]]]]]]]]]]]]]]]]]]]]]]]]]]]]]]]]]]]]]]]]]]]]]]]]]]]]]]]]]]]]]]]]]]]]]]]]]]]]]]]]]]]]]]]]]]]]]]]]]]]]]]]]]]]]]]]]]]]]]]]]]]]]]]]]]]]]]]]]]]]]]]]]]]]]]]]]]]]]]]]]]]]]]]]]]]]]]]]]]]]]]]]]}",
        End::Closed,
        "\
HTTP/1.1 400 Bad Request\r\n\
Content-Length: 13\r\n\
Content-Type: application/json\r\n\
\r\n\
{\"error\":400}",
    ),
    (
        "\
POST /desks/0/filings HTTP/1.1\r\n\
Content-Length: 66\r\n\
\r\n\
{\"kind\":\"prior\",\"number\":2,\"student\":5001,\"units\":550000,\"note\":1}",
        End::Closed,
        "\
HTTP/1.1 400 Bad Request\r\n\
Content-Length: 13\r\n\
Content-Type: application/json\r\n\
\r\n\
{\"error\":400}",
    ),
    (
        "\
POST /desks/0/filings HTTP/1.1\r\n\
Content-Length: 69\r\n\
\r\n\
{\"kind\":\"prior\",\"number\":2,\"student\":5001,\"units\":\"x\",\"units\":550000}",
        End::Closed,
        "\
HTTP/1.1 201 Created\r\n\
Content-Length: 62\r\n\
Content-Type: application/json\r\n\
\r\n\
{\"answer\":\"accepted\",\"front\":1,\"outcome\":\"noted\",\"position\":2}",
    ),
    (
        "\
POST /desks/0/filings HTTP/1.1\r\n\
Content-Length: 59\r\n\
\r\n\
{\"kind\":\"school\",\"number\":2,\"code\":110,\"full\":24,\"terms\":3}",
        End::Closed,
        "\
HTTP/1.1 422 Unprocessable Entity\r\n\
Content-Length: 61\r\n\
Content-Type: application/json\r\n\
\r\n\
{\"answer\":\"refused\",\"bound\":110,\"front\":1,\"kept\":1,\"rule\":13}",
    ),
    (
        "GET / HTTP/1.0\r\n\r\nGET / HTTP/1.1\r\n\r\n",
        End::Closed,
        "\
HTTP/1.1 404 Not Found\r\n\
Content-Length: 13\r\n\
Content-Type: application/json\r\n\
Connection: close\r\n\
\r\n\
{\"error\":404}",
    ),
    (
        "GET / HTTP/1.1\r\nCONNECTION: Close\r\n\r\nGET / HTTP/1.1\r\n\r\n",
        End::Closed,
        "\
HTTP/1.1 404 Not Found\r\n\
Content-Length: 13\r\n\
Content-Type: application/json\r\n\
Connection: close\r\n\
\r\n\
{\"error\":404}",
    ),
];

#[test]
fn a_worked_year_is_answered(rt: HostRuntime) -> Result<(), Fail> {
    let alloc = rt.alloc();
    let book = with_book(&rt, alloc)?;
    for (rows, lines, request, text) in WORKED {
        let filed = assert_runs(&rt, alloc, book.image(), &[("file", rows, 0, lines)])?;
        assert_session(
            &rt,
            alloc,
            filed.image(),
            request.as_bytes(),
            End::Closed,
            text.as_bytes(),
        )?;
    }
    Ok(())
}

// Rows of the worked year with their lines, and behind them a request and its answer: a quote behind the first nine rows, and the
// student's standing behind all of them.
const WORKED: [(&str, &str, &str, &str); 2] = [
    (NINE_ROWS, NINE_LINES, QUOTE, QUOTED),
    (YEAR_ROWS, YEAR_LINES, STANDING, STANDS),
];

const QUOTE: &str = "GET /desks/110/quote/5001/2025/1 HTTP/1.1\r\n\r\n";

const QUOTED: &str = "\
HTTP/1.1 200 OK\r\n\
Content-Length: 45\r\n\
Content-Type: application/json\r\n\r\n\
{\"answer\":\"quoted\",\"cents\":114500,\"front\":10}";

const STANDING: &str = "GET /standing/5001/2025 HTTP/1.1\r\n\r\n";

const STANDS: &str = "\
HTTP/1.1 200 OK\r\n\
Content-Length: 136\r\n\
Content-Type: application/json\r\n\r\n\
{\"answer\":\"standing\",\"formula\":\"A\",\"front\":18,\"paid\":179126,\"sai\":5104,\"scheduled\":2290,\
\"transaction\":1,\"used\":78221,\"way\":\"calculated\"}";

// The calls that fail, of the disk and of a connection's reads and writes, how the session over two filings ends, and what is
// written. The disk is opened by four calls, one makes the file longer, the record is written and synced by two more, and its gate
// by another two.
const FAULTS: [(&[u64], &[u64], &[u64], End, &str); 5] = [
    (&[6], &[], &[], End::Closed, NONE_UNDECIDED),
    (&[8], &[], &[], End::Closed, ONE_UNDECIDED),
    (&[], &[1], &[], End::ConnectionFault, ""),
    (&[], &[], &[1], End::ConnectionFault, ""),
    (&[], &[], &[2], End::ConnectionFault, HALF),
];

const NONE_UNDECIDED: &str = "\
HTTP/1.1 503 Service Unavailable\r\n\
Content-Length: 40\r\n\
Content-Type: application/json\r\n\
\r\n\
{\"answer\":\"disk fault\",\"undecided\":null}\
HTTP/1.1 201 Created\r\n\
Content-Length: 62\r\n\
Content-Type: application/json\r\n\
\r\n\
{\"answer\":\"accepted\",\"front\":1,\"outcome\":\"noted\",\"position\":2}";

// The next turn settles the filing.
const ONE_UNDECIDED: &str = "\
HTTP/1.1 503 Service Unavailable\r\n\
Content-Length: 37\r\n\
Content-Type: application/json\r\n\
\r\n\
{\"answer\":\"disk fault\",\"undecided\":2}\
HTTP/1.1 200 OK\r\n\
Content-Length: 59\r\n\
Content-Type: application/json\r\n\
\r\n\
{\"answer\":\"again\",\"front\":2,\"outcome\":\"noted\",\"position\":2}";

// The first 50 bytes of an answer.
const HALF: &str = "HTTP/1.1 201 Created\r\nContent-Length: 62\r\nContent-";

#[test]
fn faults_on_a_connection(rt: HostRuntime) -> Result<(), Fail> {
    let alloc = rt.alloc();
    let school = with_school(&rt, alloc)?;
    for (calls, reads, writes, end, text) in FAULTS {
        let disk = disk(alloc, school.image(), calls, None)?;
        let bytes = joined(alloc, FILING, FILING)?;
        let link = MemoryConnection::new(alloc, bytes, reads.to_vec(alloc)?, writes.to_vec(alloc)?);
        let mut link = link.in_pieces(50);
        let ended = serve(&rt, alloc, disk, &mut link);
        assert_eq!(rt; link.text(), text.as_bytes());
        assert_eq!(rt; ended, Some(end));
    }
    Ok(())
}

// Up to which of its bytes a peer sends, once it has read so many bytes.
type Part = (usize, usize);

// A peer in memory that sends the next bytes once it has read what is due before them, and leaves its side open. A read that would
// wait for it for good fails.
#[derive(Drop)]
struct Peer<'a> {
    bytes: &'a [u8],
    at: usize,
    end: usize,
    parts: &'a [Part],
    sent: usize,
    text: Vec<u8>,
    faults: u64,
}

impl<'a> Peer<'a> {
    // Sends what is due next, if anything is.
    fn send(&mut self)
        ensures { self.new.faults ≡ self.old.faults }
    {
        if self.sent < self.parts.len() {
            let (end, due) = self.parts[self.sent];
            if self.text.len() == due {
                self.end = end;
                self.sent += 1;
            }
        }
    }

    // One fault more.
    fn fail(&mut self) -> Failed
        ensures later { self.old.faults ≤ self.new.faults }
        ensures cause { Rose self.old.faults self.new.faults }
    {
        self.faults = self.faults.saturating_add(1);
        Failed
    }
}

impl<'a> Connection for Peer<'a> {
    ghost use Rattle.std.specs.Prelude.{[], false};

    ghost tells = { λ _. record { honest = false; left = []; text = [] } };

    ghost faults = { λ p. p.faults };

    fn read(&mut self, buffer: &mut [u8]) -> Result<usize, Failed> {
        if self.at == self.end {
            self.send();
        }
        if self.at >= self.end || self.end > self.bytes.len() {
            return Err(self.fail());
        }
        let rest = &self.bytes[self.at..self.end];
        let n = rest.len().min(buffer.len());
        buffer[..n].copy_from_slice(&rest[..n]);
        self.at += n;
        Ok(n)
    }

    fn write(&mut self, bytes: &[u8]) -> Result<usize, Failed> {
        match self.text.extend_from_slice(bytes) {
            Ok(()) => Ok(bytes.len()),
            Err(_) => Err(self.fail()),
        }
    }
}

// A session with a peer that sends these parts ends so, and has written this.
fn assert_answered(
    rt: &(impl Abort + Wait),
    alloc: Global,
    image: &[u8],
    bytes: &[u8],
    parts: &[Part],
    end: End,
    text: &[u8],
) -> Result<(), Fail> {
    let mut peer = Peer {
        bytes,
        at: 0,
        end: 0,
        parts,
        sent: 0,
        text: Vec::new(alloc),
        faults: 0,
    };
    let ended = serve(rt, alloc, disk(alloc, image, &[], None)?, &mut peer);
    assert_eq!(rt; peer.text.as_slice(), text);
    assert_eq!(rt; ended, Some(end));
    assert_eq!(rt; peer.faults, 0);
    Ok(())
}

#[test]
fn answers_come_before_the_next_read(rt: HostRuntime) -> Result<(), Fail> {
    let alloc = rt.alloc();
    let school = with_school(&rt, alloc)?;
    let bytes = joined(alloc, FILING, LAST)?;
    let first = FILING.len();
    let parts = [
        (first, 0),
        (first.saturating_add(LAST_CUT), CREATED.len()),
        (bytes.len(), CREATED.len()),
    ];
    assert_answered(
        &rt,
        alloc,
        school.image(),
        bytes.as_slice(),
        &parts,
        End::Closed,
        BOTH_ANSWERS.as_bytes(),
    )?;
    Ok(())
}

#[test]
fn a_head_too_long_is_rejected_before_the_next_read(rt: HostRuntime) -> Result<(), Fail> {
    let alloc = rt.alloc();
    let mut long = b"GET / HTTP/1.1\r\na: ".to_vec(alloc)?;
    long.resize(16_384, b'v')?;
    assert_rejected(
        &rt,
        alloc,
        long.as_slice(),
        "431 Request Header Fields Too Large",
    )
}

#[test]
fn heads_are_rejected_before_the_next_read(rt: HostRuntime) -> Result<(), Fail> {
    for (head, line) in REJECTED {
        assert_rejected(&rt, rt.alloc(), head.as_bytes(), line)?;
    }
    Ok(())
}

// A peer that sends a head is answered by this status and phrase before it sends more.
fn assert_rejected(
    rt: &(impl Abort + Wait),
    alloc: Global,
    head: &[u8],
    line: &str,
) -> Result<(), Fail> {
    let school = with_school(rt, alloc)?;
    let parts = [(head.len(), 0)];
    let text = rejection(alloc, line)?;
    assert_answered(
        rt,
        alloc,
        school.image(),
        head,
        &parts,
        End::Rejected,
        text.as_bytes(),
    )
}

// The filing again, as the last request of its connection, cut in its head.
const LAST: &str = "\
POST /desks/0/filings HTTP/1.1\r\n\
Connection: close\r\n\
Content-Length: 57\r\n\
\r\n\
{\"kind\":\"prior\",\"number\":2,\"student\":5001,\"units\":550000}";

// So many bytes of it come first.
const LAST_CUT: usize = 38;

// The answers to both.
const BOTH_ANSWERS: &str = "\
HTTP/1.1 201 Created\r\n\
Content-Length: 62\r\n\
Content-Type: application/json\r\n\
\r\n\
{\"answer\":\"accepted\",\"front\":1,\"outcome\":\"noted\",\"position\":2}HTTP/1.1 200 OK\r\n\
Content-Length: 59\r\n\
Content-Type: application/json\r\n\
Connection: close\r\n\
\r\n\
{\"answer\":\"again\",\"front\":2,\"outcome\":\"noted\",\"position\":2}";

// A head that is rejected, and the status and phrase of the answer.
const REJECTED: [(&str, &str); 11] = [
    ("GET / HTTP/1.1\r\na b: 1\r\n\r\n", "400 Bad Request"),
    ("GET /\r\n\r\n", "400 Bad Request"),
    ("GET / HTTP/2.0\r\n\r\n", "400 Bad Request"),
    (
        "POST /desks/0/filings HTTP/1.1\r\nContent-Length: 1\r\nContent-Length: 1\r\n\r\n",
        "400 Bad Request",
    ),
    (
        "POST /desks/0/filings HTTP/1.1\r\nContent-Length: +1\r\n\r\n",
        "400 Bad Request",
    ),
    (
        "POST /desks/0/filings HTTP/1.1\r\nTransfer-Encoding: chunked\r\n\r\n",
        "501 Not Implemented",
    ),
    (
        "GET / HTTP/1.1\r\nContent-Encoding: gzip\r\n\r\n",
        "501 Not Implemented",
    ),
    (
        "POST /desks/0/filings HTTP/1.1\r\nExpect: 100-continue\r\nContent-Length: 65537\r\n\r\n",
        "501 Not Implemented",
    ),
    (
        "POST /desks/0/filings HTTP/1.1\r\nContent-Length: 65537\r\n\r\n",
        "413 Payload Too Large",
    ),
    (
        "GET / HTTP/1.1\r\nContent-Length: 99999999999999999999999\r\n\r\n",
        "413 Payload Too Large",
    ),
    (
        "POST /desks/0/filings HTTP/1.1\r\n\r\n",
        "411 Length Required",
    ),
];

// The answer to a rejected head, by its status and phrase.
fn rejection(alloc: Global, line: &str) -> Result<String, AllocError> {
    let (status, _) = line.split_once(' ').unwrap_or((line, ""));
    format!(in alloc;
        "HTTP/1.1 {line}\r\nContent-Length: 13\r\nContent-Type: application/json\r\nConnection: close\r\n\r\n{{\"error\":{status}}}"
    )
}

// The peer files, reads the answer, files again, reads that answer, and shuts its side.
fn file_twice(mut peer: TcpStream) -> io::Result<bool> {
    let mut created = [0; 138];
    peer.write_all(FILING.as_bytes())?;
    peer.read_exact(&mut created)?;
    let mut again = [0; 130];
    peer.write_all(FILING.as_bytes())?;
    peer.read_exact(&mut again)?;
    peer.shutdown(Shutdown::Write)?;
    let more = peer.read(&mut [0; 1])?;
    Ok(
        created.as_slice() == CREATED.as_bytes()
            && again.as_slice() == AGAIN.as_bytes()
            && more == 0,
    )
}

// The session over a socket, which is closed then.
fn serve_socket<H: Clock + Wait>(
    rt: &H,
    alloc: Global,
    disk: MemoryDisk,
    stream: TcpStream,
) -> Option<End> {
    let mut link = HostConnection::new(rt, stream);
    let ended = serve(rt, alloc, disk, &mut link);
    link.close();
    ended
}

#[test]
fn a_filing_twice_over_a_socket(rt: HostRuntime) -> Result<(), Fail> {
    let alloc = rt.alloc();
    let school = with_school(&rt, alloc)?;
    let listener = TcpListener::bind(&rt, (Ipv4Addr::LOCALHOST, 0))?;
    let peer = TcpStream::connect(&rt, listener.local_addr()?)?;
    let (stream, _) = listener.accept()?;
    let host = &rt;
    let (ended, read) = join(
        host,
        move || -> Option<End> { serve_socket(host, alloc, school, stream) },
        move || -> io::Result<bool> { file_twice(peer) },
    );
    assert_eq!(rt; ended, Some(End::Closed));
    assert!(rt; read?);
    Ok(())
}
