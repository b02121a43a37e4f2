//! A connection over a socket.
ghost use Rattle.std.specs.Prelude.{◌≡◌, ◌≤◌, false, length, IfOk};
ghost use Rattle.io_traits.specs.Faults.{Rose};

use crate::retried::{read_some, write_some};
use io_traits::Failed;
use std::io;
use std::io::{ErrorKind, Read};
use std::net::{Shutdown, TcpStream};
use std::time::{Clock, Duration, Instant};
use web_session::Connection;

/// So many seconds a read or a write waits for the peer, and so many a request may take as a whole, from its first byte on.
const SECONDS: u64 = 30;

/// So many pieces of what a peer still sends are read and thrown away before its socket is closed, each within a second, and all of
/// them within two.
const LAST_PIECES: u32 = 64;

const LAST_SECONDS: u64 = 2;

// A socket, and when the first byte came since something was last written: a request began then.
#[derive(Drop)]
struct Socket {
    stream: TcpStream,
    begun: Option<Instant>,
}

/// A connection over a socket, with a count of its faults. A read or a write that waits longer than 30 seconds is a fault, and so is a
/// read once 30 seconds have gone by since the first byte behind what was last written, so that neither a peer who does nothing nor
/// one who sends a byte now and then holds a worker for good.
#[derive(Drop)]
pub struct HostConnection<'a, C> {
    clock: &'a C,
    socket: Option<Socket>,
    faults: u64,
}

// Sets how long a call waits, and that no answer waits for another.
fn set_up(stream: &TcpStream) -> io::Result<()> {
    let time_out = Some(Duration::from_secs(SECONDS));
    stream.set_read_timeout(time_out)?;
    stream.set_write_timeout(time_out)?;
    stream.set_nodelay(true)
}

// What is left of so many seconds that began then. Where nothing is, the time is out.
fn time_left<C: Clock>(clock: &C, begun: Instant, seconds: u64) -> io::Result<Duration> {
    let left = Duration::from_secs(seconds).saturating_sub(begun.elapsed(clock)?);
    if left.is_zero() {
        Err(ErrorKind::TimedOut.into())
    } else {
        Ok(left)
    }
}

impl Socket {
    // Reads within the time that is left of the request.
    fn read<C: Clock>(&mut self, clock: &C, buffer: &mut [u8]) -> io::Result<usize>
        ensures { IfOk result (λ n. n ≤ length buffer.old) }
    {
        let left = match self.begun {
            Some(begun) => time_left(clock, begun, SECONDS)?,
            None => Duration::from_secs(SECONDS),
        };
        self.stream.set_read_timeout(Some(left))?;
        let count = read_some(&mut self.stream, buffer)?;
        if self.begun.is_none() {
            self.begun = Some(Instant::now(clock)?);
        }
        Ok(count)
    }

    // Writes. What comes behind that is another request.
    fn write(&mut self, bytes: &[u8]) -> io::Result<usize>
        ensures { IfOk result (λ n. n ≤ length bytes.now) }
    {
        self.begun = None;
        write_some(&mut self.stream, bytes)
    }

    // Says that no more is written, and reads up to the peer's end.
    fn finish<C: Clock>(mut self, clock: &C) -> io::Result<()> {
        self.stream.shutdown(Shutdown::Write)?;
        let begun = Instant::now(clock)?;
        let mut piece = [0; 4096];
        for _ in 0..LAST_PIECES {
            let left = time_left(clock, begun, LAST_SECONDS)?;
            self.stream
                .set_read_timeout(Some(left.min(Duration::from_secs(1))))?;
            if self.stream.read(&mut piece)? == 0 {
                return Ok(());
            }
        }
        Ok(())
    }
}

impl<'a, C: Clock> HostConnection<'a, C> {
    /// The edge of a socket, whose time is told by a clock. Where the system refuses to set its time-outs each call is a fault.
    pub fn new(clock: &'a C, stream: TcpStream) -> Self
        ensures silent { (⟦<HostConnection<'a, C> as Connection>⟧.tells result).honest ≡ false }
        ensures no_faults { ⟦<HostConnection<'a, C> as Connection>⟧.faults result ≡ 0 }
    {
        let socket = match set_up(&stream) {
            Ok(()) => Some(Socket {
                stream,
                begun: None,
            }),
            Err(_) => None,
        };
        HostConnection {
            clock,
            socket,
            faults: 0,
        }
    }

    /// Ends the connection: what was written goes out, and what the peer still sends is read for two seconds at most and thrown away.
    /// A socket that is closed over bytes that weren't read may take the last response from the peer.
    pub fn close(self) {
        let clock = self.clock;
        if let Some(socket) = self.socket {
            let _ = socket.finish(clock);
        }
    }

    // One fault more.
    fn fail(&mut self) -> Failed
        ensures later { self.old.faults ≤ self.new.faults }
        ensures cause { Rose self.old.faults self.new.faults }
    {
        self.faults = self.faults.saturating_add(1);
        Failed
    }
}

impl<'a, C: Clock> Connection for HostConnection<'a, C> {
    ghost use Rattle.std.specs.Prelude.{[], false};

    ghost tells = { λ _. record { honest = false; left = []; text = [] } };

    ghost faults = { λ e. e.faults };

    fn read(&mut self, buffer: &mut [u8]) -> Result<usize, Failed> {
        let clock = self.clock;
        match &mut self.socket {
            Some(socket) => match socket.read(clock, buffer) {
                Ok(count) => Ok(count),
                Err(_) => Err(self.fail()),
            },
            None => Err(self.fail()),
        }
    }

    fn write(&mut self, bytes: &[u8]) -> Result<usize, Failed> {
        match &mut self.socket {
            Some(socket) => match socket.write(bytes) {
                Ok(count) if count > 0 || bytes.is_empty() => Ok(count),
                _ => Err(self.fail()),
            },
            None => Err(self.fail()),
        }
    }
}
