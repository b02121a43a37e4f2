// What the web desk writes on connections in memory: a worked row, a port that fails, and two ports in either order; and the
// stamps in the file.
ghost use Rattle.std.specs.Prelude.{◌≡◌, ◌<◌, IfOk};
ghost use Rattle.io_memory.specs.Held.{IsUnused};

use crate::connections::{AGAIN, CREATED, FILING};
use crate::runs::with_school;
use aid_stamps::{ClerkName, Stamp};
use aid_types::Day;
use io_memory::{
    HoldSyncPoint, MemoryAcceptor, MemoryConnection, MemoryDisk, MemorySink, PacedAcceptor,
};
use run_server::run_web;
use std::alloc::{AllocError, Global};
use std::process::Abort;
use std::sync::Wait;
use std::test::Fail;
use std::thread::Threads;
use web_session::Acceptor;
use whole_runs::{EMPTY, disk};

// The filing of a student's earlier use under another number.
const OTHER: &[u8] =
    b"POST /desks/0/filings HTTP/1.1\r\nHost: localhost\r\nContent-Length: 57\r\n\r\n{\"kind\":\"prior\",\"number\":3,\"student\":5001,\"units\":550000}";

// What is written where the first of two filings of a student's earlier use comes, and where the second does.
const FIRST: &[u8] =
    b"HTTP/1.1 201 Created\r\nContent-Length: 62\r\nContent-Type: application/json\r\n\r\n{\"answer\":\"accepted\",\"front\":0,\"outcome\":\"noted\",\"position\":1}";

const SECOND: &[u8] =
    b"HTTP/1.1 422 Unprocessable Entity\r\nContent-Length: 62\r\nContent-Type: application/json\r\n\r\n{\"answer\":\"refused\",\"bound\":5001,\"front\":1,\"kept\":1,\"rule\":80}";

// A connection that brings these bytes.
fn link(alloc: Global, bytes: &[u8]) -> Result<MemoryConnection, Fail>
    ensures { IfOk result (λ link. IsUnused link) }
{
    Ok(MemoryConnection::new(
        alloc,
        bytes.to_vec(alloc)?,
        Vec::new(alloc),
        Vec::new(alloc),
    ))
}

// A port of one connection.
fn port_of_one(alloc: Global, bytes: &[u8]) -> Result<MemoryAcceptor, Fail> {
    let link = link(alloc, bytes)?;
    let mut links = Vec::new(alloc);
    links.push(link)?;
    Ok(MemoryAcceptor::new(alloc, links, Vec::new(alloc))?)
}

// A port of two connections that bring the same.
fn port_of_two(
    alloc: Global,
    bytes: &[u8],
    piece: usize,
    failing: &[u64],
) -> Result<MemoryAcceptor, Fail>
    requires { 0 < piece }
{
    let one = link(alloc, bytes)?.in_pieces(piece);
    let other = link(alloc, bytes)?.in_pieces(piece);
    let mut links = Vec::new(alloc);
    links.push(one)?;
    links.push(other)?;
    Ok(MemoryAcceptor::new(alloc, links, failing.to_vec(alloc)?)?)
}

// A founded file.
fn founded(alloc: Global) -> Result<MemoryDisk, AllocError> {
    disk(alloc, EMPTY, &[], None)
}

// The ports are served, so many connections each, which ends with this status and this text.
fn serve<P: Acceptor + Send, H: Threads + Wait + Abort + Sync>(
    rt: &H,
    alloc: Global,
    ports: &mut Vec<P>,
    sessions: u32,
    disk: MemoryDisk,
    ends: (u8, &str),
)
where
    P::Connection: Send,
{
    let mut sink = MemorySink::new(alloc, Vec::new(alloc));
    let (status, _) = run_web(rt, alloc, ports, sessions, Stamp::plain(), disk, &mut sink);
    assert!(rt; status == ends.0);
    assert!(rt; sink.text() == ends.1.as_bytes());
}

// A port of two connections, which come in pieces, hands back connections with these texts.
fn serve_two<H: Threads + Wait + Abort + Sync>(
    rt: &H,
    alloc: Global,
    piece: usize,
    failing: &[u64],
    texts: &[&[u8]],
    ends: (u8, &str),
) -> Result<(), Fail> {
    assert!(rt; piece > 0);
    let mut ports = Vec::new(alloc);
    ports.push(port_of_two(alloc, FILING.as_bytes(), piece, failing)?)?;
    serve(rt, alloc, &mut ports, 2, with_school(rt, alloc)?, ends);
    let [port] = ports.as_slice() else {
        return Err(Fail::new("not one port"));
    };
    let back = port.back();
    assert!(rt; back.len() == texts.len());
    for i in 0..texts.len() {
        assert!(rt; back[i].text() == texts[i]);
    }
    Ok(())
}

#[test]
fn a_filing_on_each_of_two_connections(rt: HostRuntime) -> Result<(), Fail> {
    let alloc = rt.alloc();
    serve_two(
        &rt,
        alloc,
        1,
        &[],
        &[CREATED.as_bytes(), AGAIN.as_bytes()],
        (0, ""),
    )?;
    serve_two(
        &rt,
        alloc,
        100_000,
        &[],
        &[CREATED.as_bytes(), AGAIN.as_bytes()],
        (0, ""),
    )
}

#[test]
fn a_port_fails(rt: HostRuntime) -> Result<(), Fail> {
    let alloc = rt.alloc();
    serve_two(
        &rt,
        alloc,
        7,
        &[2],
        &[CREATED.as_bytes()],
        (10, "fault socket\n"),
    )?;
    serve_two(&rt, alloc, 7, &[1], &[], (10, "fault socket\n"))
}

// The text of the one connection that was taken back.
fn is_back<H: Abort>(rt: &H, port: &MemoryAcceptor, text: &[u8]) {
    let back = port.back();
    assert!(rt; back.len() == 1);
    assert!(rt; back[0].text() == text);
}

// Two ports, each with one connection, are served behind a gate, and these texts are written.
fn serve_gated<H: Threads + Wait + Abort + Sync>(
    rt: &H,
    alloc: Global,
    gate: &HoldSyncPoint,
    texts: (&[u8], &[u8]),
) -> Result<(), Fail> {
    let mut ports = Vec::new(alloc);
    ports.push(PacedAcceptor::new(port_of_one(alloc, FILING.as_bytes())?, gate, 1))?;
    ports.push(PacedAcceptor::new(port_of_one(alloc, OTHER)?, gate, 2))?;
    serve(rt, alloc, &mut ports, 1, founded(alloc)?, (0, ""));
    let [one, other] = ports.as_slice() else {
        return Err(Fail::new("not two ports"));
    };
    is_back(rt, one.inner(), texts.0);
    is_back(rt, other.inner(), texts.1);
    Ok(())
}

#[test]
fn port_2_files_first(rt: HostRuntime) -> Result<(), Fail> {
    let gate = HoldSyncPoint::new(1, 2, 1000000);
    serve_gated(&rt, rt.alloc(), &gate, (SECOND, FIRST))
}

#[test]
fn port_1_files_first(rt: HostRuntime) -> Result<(), Fail> {
    let gate = HoldSyncPoint::new(2, 1, 1000000);
    serve_gated(&rt, rt.alloc(), &gate, (FIRST, SECOND))
}

// The answer to a filing that stands as the first.
const FIRST_AGAIN: &[u8] =
    b"HTTP/1.1 200 OK\r\nContent-Length: 59\r\nContent-Type: application/json\r\n\r\n{\"answer\":\"again\",\"front\":1,\"outcome\":\"noted\",\"position\":1}";

// The filing of another student's earlier use.
const LATER: &[u8] =
    b"POST /desks/0/filings HTTP/1.1\r\nHost: localhost\r\nContent-Length: 57\r\n\r\n{\"kind\":\"prior\",\"number\":3,\"student\":5002,\"units\":550000}";

// The answer to a filing that is added as the second.
const SECOND_CREATED: &[u8] =
    b"HTTP/1.1 201 Created\r\nContent-Length: 62\r\nContent-Type: application/json\r\n\r\n{\"answer\":\"accepted\",\"front\":1,\"outcome\":\"noted\",\"position\":2}";

// The file with the filing of the clerk ruth on 2025-09-01.
const STAMPED: &[u8] =
    b"\x01AIDPELL1\x02\0\0\0\0\0\0\x01\x22\0\0\0\x6c\x4f\0\0\x04ruth\x04\0\0\0\0\x02\0\0\0\0\0\0\0\x89\x13\0\0\0\0\0\0\x70\x64\x08\0\0";

// And with another filing of no clerk on 1970-01-01 behind it.
const STAMPED_BOTH: &[u8] =
    b"\x01AIDPELL1\x02\0\0\0\0\0\0\x01\x22\0\0\0\x6c\x4f\0\0\x04ruth\x04\0\0\0\0\x02\0\0\0\0\0\0\0\x89\x13\0\0\0\0\0\0\x70\x64\x08\0\x01\x1e\0\0\0\0\0\0\0\0\x04\0\0\0\0\x03\0\0\0\0\0\0\0\x8a\x13\0\0\0\0\0\0\x70\x64\x08\0\0";

// The file has these bytes, and room behind them, in which nothing is written.
fn is_image<H: Abort>(rt: &H, disk: &MemoryDisk, bytes: &[u8]) {
    let image = disk.image();
    assert!(rt; image.starts_with(bytes));
    assert!(rt; image.iter().skip(bytes.len()).all(|byte| *byte == 0));
}

// A connection that brings these bytes is served under the stamp, and writes this text. The file then has these bytes.
fn serve_under<H: Threads + Wait + Abort + Sync>(
    rt: &H,
    alloc: Global,
    stamp: Stamp,
    disk: MemoryDisk,
    bytes: &[u8],
    text: &[u8],
    image: &[u8],
) -> Result<MemoryDisk, Fail> {
    let mut ports = Vec::new(alloc);
    ports.push(port_of_one(alloc, bytes)?)?;
    let mut sink = MemorySink::new(alloc, Vec::new(alloc));
    let (status, disk) = run_web(rt, alloc, &mut ports, 1, stamp, disk, &mut sink);
    assert!(rt; status == 0);
    let [port] = ports.as_slice() else {
        return Err(Fail::new("not one port"));
    };
    is_back(rt, port, text);
    is_image(rt, &disk, image);
    Ok(disk)
}

// The stamp of this clerk on this day.
fn stamp_of(day: Day, name: &[u8]) -> Result<Stamp, Fail> {
    let Some(clerk) = ClerkName::new(name) else {
        return Err(Fail::new("no clerk"));
    };
    Ok(Stamp { day, clerk })
}

#[test]
fn a_filing_keeps_its_first_stamp(rt: HostRuntime) -> Result<(), Fail> {
    let alloc = rt.alloc();
    let ruth = stamp_of(Day(20_332), b"ruth")?;
    let omar = stamp_of(Day(20_333), b"omar")?;
    let filing = FILING.as_bytes();
    let disk = founded(alloc)?;
    let disk = serve_under(&rt, alloc, ruth, disk, filing, FIRST, STAMPED)?;
    let disk = serve_under(&rt, alloc, omar, disk, filing, FIRST_AGAIN, STAMPED)?;
    let plain = Stamp::plain();
    serve_under(&rt, alloc, plain, disk, LATER, SECOND_CREATED, STAMPED_BOTH)?;
    Ok(())
}
