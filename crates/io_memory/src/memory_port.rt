//! A port in memory, which tells what becomes of its connections.
ghost use Rattle.std.specs.Prelude.{◌≡◌, ◌⊎◌, ◌↔◌, ◌+◌, ◌≤◌, ◌<◌, [], IfOk, OnOk, OnErr, IsErr, Contains, length, reverse};
ghost use Rattle.std.specs.List.{All};
ghost use Rattle.io_traits.specs.Faults.{Rose, next_count};
ghost use Rattle.io_memory.specs.Wires.{wire_faults, wire_tells};
ghost use Rattle.web_session.specs.Ports.{HandsOut};
ghost use Rattle.io_memory.specs.Held.{IsUnused, held_tells};

use crate::MemoryConnection;
use io_traits::Failed;
use std::alloc::{AllocError, Global};
use std::marker::Model;
use web_session::Acceptor;

/// A port in memory. It hands its connections out in order, and `next` fails at the calls of the given numbers, counted
/// from 1, and where no connection is left.
#[derive(Drop)]
pub struct MemoryAcceptor {
    // The connections to come, the last first.
    links: Vec<MemoryConnection>,
    back: Vec<MemoryConnection>,
    out: usize,
    failing: Vec<u64>,
    calls: u64,
    faults: u64,
}

impl Model for MemoryAcceptor {
    ghost use Rattle.std.specs.Prelude.{◌+◌, ◌≤◌, length, reverse, vec_capacity};
    ghost use Rattle.std.specs.List.{All};
    ghost use Rattle.io_memory.specs.Held.{Held, IsUnused};

    ghost Value = { Held };

    ghost view = { λ p. record {
      waiting = reverse p.links.items;
      back = p.back.items;
      out = p.out;
      failing = p.failing.items;
      calls = p.calls;
      faults = p.faults;
    } };

    ghost invariant = { λ p. (length p.back.items + p.out + length p.links.items ≤ vec_capacity p.back) × All IsUnused p.links.items };
}

impl MemoryAcceptor {
    /// A port that hands out these connections. It takes all the room that it needs.
    pub fn new(
        alloc: Global,
        links: Vec<MemoryConnection>,
        failing: Vec<u64>,
    ) -> Result<Self, AllocError>
        requires unused { All IsUnused links.items }
        ensures { IfOk result (λ port. port ≡ record {
          waiting = links.items;
          back = [];
          out = 0;
          failing = failing.items;
          calls = 0;
          faults = 0;
        }) }
    {
        let mut back = Vec::new(alloc);
        back.reserve(links.len())?;
        let mut links = links;
        links.reverse();
        Ok(MemoryAcceptor {
            links,
            back,
            out: 0,
            failing,
            calls: 0,
            faults: 0,
        })
    }

    /// The connections that were taken back, the oldest first. It takes no memory.
    pub fn back(&self) -> &[MemoryConnection]
        ensures { result.now ≡ self.now.back }
    {
        &self.back
    }

    // One fault more.
    fn fail(&mut self) -> Failed
        ensures { self.new ≡ record self.old { faults = next_count self.old.faults } }
    {
        self.faults = self.faults.saturating_add(1);
        Failed
    }
}

impl Acceptor for MemoryAcceptor {
    ghost use Rattle.io_memory.specs.Held.{held_tells};

    type Connection = MemoryConnection;

    ghost tells = { held_tells };

    ghost faults = { λ p. p.faults };

    fn next(&mut self) -> Result<MemoryConnection, Failed>
        ensures unused { IfOk result (λ link. wire_faults link ≡ 0) }
        ensures handed { IfOk result (λ link. HandsOut (held_tells self.old) (held_tells self.new) (wire_tells link)) }
        ensures failed { OnErr result (held_tells self.new ≡ held_tells self.old) }
        ensures later { self.old.faults ≤ self.new.faults }
        ensures cause { OnErr result (Rose self.old.faults self.new.faults) }
        ensures unmoved { OnOk result (self.new.faults ≡ self.old.faults) }
        ensures fails { IsErr result ↔ (Contains self.old.failing self.new.calls ⊎ (self.old.waiting ≡ [])) }
        ensures counted { self.new.calls ≡ next_count self.old.calls }
        ensures failing { self.new.failing ≡ self.old.failing }
    {
        self.calls = self.calls.saturating_add(1);
        if self.failing.contains(&self.calls) {
            return Err(self.fail());
        }
        match self.links.pop() {
            Some(link) => {
                self.out += 1;
                Ok(link)
            }
            None => Err(self.fail()),
        }
    }

    fn done(&mut self, link: MemoryConnection) {
        self.out -= 1;
        self.back.push_reserved(link);
    }
}
