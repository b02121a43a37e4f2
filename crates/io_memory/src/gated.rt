//! A port in memory whose connections wait for a gate. Tests choose by it which of two ports is served first.
ghost use Rattle.std.specs.Prelude.{◌≡◌, ◌⊎◌, ◌↔◌, ◌≤◌, [], IfOk, OnOk, OnErr, IsErr, Contains};
ghost use Rattle.io_traits.specs.Faults.{Rose, next_count};
ghost use Rattle.io_memory.specs.Wires.{wire_faults, wire_tells};
ghost use Rattle.web_session.specs.Ports.{HandsOut};
ghost use Rattle.io_memory.specs.Held.{held_tells};

use crate::{MemoryAcceptor, MemoryConnection};
use io_traits::{Failed, SyncPoint};
use std::marker::Model;
use web_session::{Acceptor, Connection};

/// A connection in memory. Before each read it calls the gate's `hold`, and after each write its `answered`, with its port's
/// number and row 1.
#[derive(Drop)]
pub struct PacedConnection<'g, G> {
    inner: MemoryConnection,
    gate: &'g G,
    port: u32,
}

impl<'g, G> Model for PacedConnection<'g, G> {
    ghost use Rattle.io_memory.specs.Wires.{Wire};

    ghost Value = { Wire };

    ghost view = { λ l. l.inner };
}

impl<'g, G: SyncPoint> Connection for PacedConnection<'g, G> {
    ghost use Rattle.io_memory.specs.Wires.{wire_tells, wire_faults};

    ghost tells = { wire_tells };

    ghost faults = { wire_faults };

    fn read(&mut self, buffer: &mut [u8]) -> Result<usize, Failed> {
        self.gate.hold(self.port, 1);
        self.inner.read(buffer)
    }

    fn write(&mut self, bytes: &[u8]) -> Result<usize, Failed> {
        let written = self.inner.write(bytes);
        self.gate.answered(self.port, 1);
        written
    }
}

/// A port in memory whose connections wait for a gate.
#[derive(Drop)]
pub struct PacedAcceptor<'g, G> {
    inner: MemoryAcceptor,
    gate: &'g G,
    port: u32,
}

impl<'g, G> Model for PacedAcceptor<'g, G> {
    ghost use Rattle.io_memory.specs.Held.{Held};

    ghost Value = { Held };

    ghost view = { λ p. p.inner };
}

impl<'g, G> PacedAcceptor<'g, G> {
    /// A port with this number, whose connections are those of the inner one. It takes no memory.
    pub fn new(inner: MemoryAcceptor, gate: &'g G, port: u32) -> Self
        ensures { result ≡ inner }
    {
        PacedAcceptor { inner, gate, port }
    }

    /// The port in memory.
    pub fn inner(&self) -> &MemoryAcceptor
        ensures { result.now ≡ self.now }
    {
        &self.inner
    }
}

impl<'g, G: SyncPoint> Acceptor for PacedAcceptor<'g, G> {
    ghost use Rattle.io_memory.specs.Held.{held_tells};

    type Connection = PacedConnection<'g, G>;

    ghost tells = { held_tells };

    ghost faults = { λ p. p.faults };

    fn next(&mut self) -> Result<PacedConnection<'g, G>, Failed>
        ensures unused { IfOk result (λ link. wire_faults link ≡ 0) }
        ensures handed { IfOk result (λ link. HandsOut (held_tells self.old) (held_tells self.new) (wire_tells link)) }
        ensures failed { OnErr result (held_tells self.new ≡ held_tells self.old) }
        ensures later { self.old.faults ≤ self.new.faults }
        ensures cause { OnErr result (Rose self.old.faults self.new.faults) }
        ensures unmoved { OnOk result (self.new.faults ≡ self.old.faults) }
        ensures fails { IsErr result ↔ (Contains self.old.failing self.new.calls ⊎ (self.old.waiting ≡ [])) }
        ensures counted { self.new.calls ≡ next_count self.old.calls }
        ensures failing { self.new.failing ≡ self.old.failing }
    {
        let inner = self.inner.next()?;
        Ok(PacedConnection {
            inner,
            gate: self.gate,
            port: self.port,
        })
    }

    fn done(&mut self, link: PacedConnection<'g, G>) {
        self.inner.done(link.inner);
    }
}
