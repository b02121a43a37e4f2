//! The connections that come to a listener.
ghost use Rattle.std.specs.Prelude.{◌≡◌, false};

use crate::HostConnection;
use io_traits::Failed;
use std::net::TcpListener;
use std::thread;
use std::time::{Clock, Duration};
use web_session::Acceptor;

/// So many times in a row it is tried to take a connection.
const TRIES: u32 = 1_000;

/// So many milliseconds a port waits where the system has nothing left to take a connection with. All tries take four minutes then.
const WAIT: u64 = 250;

// Errors by their numbers in Linux, beside those that `libc` names.
const ENFILE: i32 = 23;

const ENONET: i32 = 64;

const EPROTO: i32 = 71;

const ENOPROTOOPT: i32 = 92;

const EOPNOTSUPP: i32 = 95;

const ENETDOWN: i32 = 100;

const ENETUNREACH: i32 = 101;

const ENOBUFS: i32 = 105;

const EHOSTDOWN: i32 = 112;

const EHOSTUNREACH: i32 = 113;

// What befell one connection before it was taken, or the call: accept(2) is to be called again.
fn is_passed_over(error: i32) -> bool {
    matches!(
        error,
        libc::ECONNABORTED
            | libc::EINTR
            | EPROTO
            | ENOPROTOOPT
            | EOPNOTSUPP
            | ENONET
            | ENETDOWN
            | ENETUNREACH
            | EHOSTDOWN
            | EHOSTUNREACH
    )
}

// Want of descriptors or of memory, which may come to an end.
fn is_want(error: i32) -> bool {
    matches!(error, libc::EMFILE | ENFILE | ENOBUFS | libc::ENOMEM)
}

/// The connections that come to a listener, with a count of its faults. Several ports may take them from one listener. What befell a
/// connection before it was taken is passed over, and want of descriptors or of memory is waited out for some minutes.
#[derive(Drop)]
pub struct HostAcceptor<'a, C> {
    clock: &'a C,
    listener: &'a TcpListener,
    faults: u64,
}

impl<'a, C: Clock> HostAcceptor<'a, C> {
    /// The port of a listener, whose connections have their time from a clock.
    pub fn new(clock: &'a C, listener: &'a TcpListener) -> Self
        ensures silent { (⟦<HostAcceptor<'a, C> as Acceptor>⟧.tells result).honest ≡ false }
        ensures no_faults { ⟦<HostAcceptor<'a, C> as Acceptor>⟧.faults result ≡ 0 }
    {
        HostAcceptor {
            clock,
            listener,
            faults: 0,
        }
    }
}

impl<'a, C: Clock> Acceptor for HostAcceptor<'a, C> {
    ghost use Rattle.web_session.specs.Ports.{silent_port};

    type Connection = HostConnection<'a, C>;

    ghost tells = { λ _. silent_port };

    ghost faults = { λ p. p.faults };

    fn next(&mut self) -> Result<HostConnection<'a, C>, Failed> {
        for _ in 0..TRIES {
            let error = match self.listener.accept() {
                Ok((stream, _)) => return Ok(HostConnection::new(self.clock, stream)),
                Err(error) => error.raw_os_error(),
            };
            match error {
                Some(number) if is_passed_over(number) => {}
                Some(number) if is_want(number) => thread::sleep(
                    self.clock,
                    Duration::from_millis(WAIT),
                ),
                _ => break,
            }
        }
        self.faults = self.faults.saturating_add(1);
        Err(Failed)
    }

    fn done(&mut self, link: HostConnection<'a, C>) {
        link.close();
    }
}
