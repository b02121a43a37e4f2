//! A connection in memory, which tells what it holds.
ghost use Rattle.std.specs.Prelude.{◌≡◌, ◌<◌, ◌≤◌, ◌↔◌, ◌++◌, [], true, length, take, IfOk, OnOk, OnErr, IsErr, Contains};
ghost use Rattle.io_traits.specs.Faults.{Rose, next_count};
ghost use Rattle.io_traits.specs.Moved.{IsFrontRead};
ghost use Rattle.io_memory.specs.Wires.{wire_tells, wire_faults};

use crate::{MemorySink, MemorySource};
use io_traits::{Failed, Sink, Source};
use std::alloc::Global;
use std::marker::Model;
use web_session::Connection;

/// A connection in memory, with the numbers of the reads and of the writes that fail, each counted from 1. A write that
/// finds no memory fails too.
#[derive(Drop)]
pub struct MemoryConnection {
    source: MemorySource,
    sink: MemorySink,
    piece: usize,
}

impl Model for MemoryConnection {
    ghost use Rattle.std.specs.Prelude.{◌<◌};
    ghost use Rattle.io_memory.specs.Wires.{Wire};

    ghost Value = { Wire };

    ghost view = { λ l. record { feed = l.source; tape = l.sink; piece = l.piece } };

    ghost invariant = { λ l. 0 < l.piece };
}

impl MemoryConnection {
    /// A link that brings these bytes, as many of them a read as fit into the buffer, and takes all the bytes of a write.
    pub fn new(
        alloc: Global,
        bytes: Vec<u8>,
        failing_reads: Vec<u64>,
        failing_writes: Vec<u64>,
    ) -> Self
        ensures { result ≡ record {
          feed = record { left = bytes.items; failing = failing_reads.items; calls = 0; faults = 0 };
          tape = record { text = []; failing = failing_writes.items; calls = 0; faults = 0 };
          piece = usize.MAX;
        } }
    {
        MemoryConnection {
            source: MemorySource::new(bytes, failing_reads),
            sink: MemorySink::new(alloc, failing_writes),
            piece: usize::MAX,
        }
    }

    /// The link, with at most `piece` bytes a read and a write.
    pub fn in_pieces(self, piece: usize) -> MemoryConnection
        requires some { 0 < piece }
        ensures { result ≡ record self { piece = piece } }
    {
        MemoryConnection { piece, ..self }
    }

    /// What was written. It takes no memory.
    pub fn text(&self) -> &[u8]
        ensures { result.now ≡ self.now.tape.text }
    {
        self.sink.text()
    }
}

impl Connection for MemoryConnection {
    ghost tells = { wire_tells };

    ghost faults = { wire_faults };

    fn read(&mut self, buffer: &mut [u8]) -> Result<usize, Failed>
        ensures fits { IfOk result (λ n. n ≤ length buffer.old) }
        ensures text { self.new.tape ≡ self.old.tape }
        ensures bytes { IfOk result (λ n. IsFrontRead n self.old.feed.left self.new.feed.left buffer.old buffer.new) }
        ensures end { 0 < length buffer.old → IfOk result (λ n. (n ≡ 0) ↔ (self.old.feed.left ≡ [])) }
        ensures failed { OnErr result (self.new.feed.left ≡ self.old.feed.left) }
        ensures later { wire_faults self.old ≤ wire_faults self.new }
        ensures cause { OnErr result (Rose (wire_faults self.old) (wire_faults self.new)) }
        ensures unmoved { OnOk result (wire_faults self.new ≡ wire_faults self.old) }
        ensures fails { IsErr result ↔ Contains self.old.feed.failing self.new.feed.calls }
        ensures counted { self.new.feed.calls ≡ next_count self.old.feed.calls }
        ensures failing { self.new.feed.failing ≡ self.old.feed.failing }
    {
        let most = usize::min(self.piece, buffer.len());
        self.source.read(&mut buffer[..most])
    }

    fn write(&mut self, bytes: &[u8]) -> Result<usize, Failed>
        ensures fits { IfOk result (λ n. n ≤ length bytes.now) }
        ensures moves { 0 < length bytes.now → IfOk result (λ n. 0 < n) }
        ensures left { self.new.feed ≡ self.old.feed }
        ensures appended { IfOk result (λ n. self.new.tape.text ≡ self.old.tape.text ++ take n bytes.now) }
        ensures failed { OnErr result (self.new.tape.text ≡ self.old.tape.text) }
        ensures later { wire_faults self.old ≤ wire_faults self.new }
        ensures cause { OnErr result (Rose (wire_faults self.old) (wire_faults self.new)) }
        ensures unmoved { OnOk result (wire_faults self.new ≡ wire_faults self.old) }
        ensures fails { Contains self.old.tape.failing self.new.tape.calls → IsErr result }
        ensures counted { self.new.tape.calls ≡ next_count self.old.tape.calls }
        ensures failing { self.new.tape.failing ≡ self.old.tape.failing }
    {
        let most = usize::min(self.piece, bytes.len());
        self.sink.write(&bytes[..most])
    }
}
