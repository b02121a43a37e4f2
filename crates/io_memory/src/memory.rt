//! Sources and sinks in memory, which tell what they hold.
ghost use Rattle.std.specs.Prelude.{◌≡◌, ◌<◌, ◌≤◌, ◌↔◌, ◌++◌, ◌+◌, [], ℕ, List, length, drop, IfOk, OnOk, OnErr, IsErr, IsOk, Contains};
ghost use Rattle.io_traits.specs.Faults.{Rose, next_count};
ghost use Rattle.io_traits.specs.Moved.{IsFrontRead};

use io_traits::{Failed, Sink, Source};
use std::alloc::Global;
use std::marker::Model;

// Fills the front of a buffer with the bytes from a place on, as many as there are and as fit.
fn fill_front(bytes: &[u8], at: usize, buffer: &mut [u8]) -> usize
    requires { at ≤ length bytes.now }
    ensures fits { result ≤ length buffer.old }
    ensures inside { at + result ≤ length bytes.now }
    ensures bytes { IsFrontRead result (drop at bytes.now) (drop (at + result) bytes.now) buffer.old buffer.new }
    ensures end { 0 < length buffer.old → ((result ≡ 0) ↔ (drop at bytes.now ≡ [])) }
{
    let count = usize::min(bytes.len() - at, buffer.len());
    buffer[..count].copy_from_slice(&bytes[at..at + count]);
    count
}

/// A source in memory, with the numbers of the calls of `read` that fail, counted from 1.
#[derive(Drop)]
pub struct MemorySource {
    bytes: Vec<u8>,
    at: usize,
    failing: Vec<u64>,
    calls: u64,
    faults: u64,
}

impl Model for MemorySource {
    ghost use Rattle.std.specs.Prelude.{◌≤◌, length, drop};
    ghost use Rattle.io_memory.specs.Kept.{Feed};

    ghost Value = { Feed };

    ghost view = { λ s. record { left = drop s.at s.bytes.items; failing = s.failing.items; calls = s.calls; faults = s.faults } };

    ghost invariant = { λ s. s.at ≤ length s.bytes.items };
}

impl MemorySource {
    /// A source of these bytes. A call of `read` fails exactly where its number is one of `failing`.
    pub fn new(bytes: Vec<u8>, failing: Vec<u64>) -> Self
        ensures { result ≡ record { left = bytes.items; failing = failing.items; calls = 0; faults = 0 } }
    {
        MemorySource {
            bytes,
            at: 0,
            failing,
            calls: 0,
            faults: 0,
        }
    }
}

impl Source for MemorySource {
    ghost use Rattle.std.specs.Prelude.{true};

    ghost honest = { λ _. true };

    ghost left = { λ s. s.left };

    ghost faults = { λ s. s.faults };

    fn read(&mut self, buffer: &mut [u8]) -> Result<usize, Failed>
        ensures fits { IfOk result (λ n. n ≤ length buffer.old) }
        ensures bytes { IfOk result (λ n. IsFrontRead n self.old.left self.new.left buffer.old buffer.new) }
        ensures end { 0 < length buffer.old → IfOk result (λ n. (n ≡ 0) ↔ (self.old.left ≡ [])) }
        ensures failed { OnErr result (self.new.left ≡ self.old.left) }
        ensures later { self.old.faults ≤ self.new.faults }
        ensures cause { OnErr result (Rose self.old.faults self.new.faults) }
        ensures unmoved { OnOk result (self.new.faults ≡ self.old.faults) }
        ensures fails { IsErr result ↔ Contains self.old.failing self.new.calls }
        ensures counted { self.new.calls ≡ next_count self.old.calls }
        ensures failing { self.new.failing ≡ self.old.failing }
    {
        self.calls = self.calls.saturating_add(1);
        if self.failing.contains(&self.calls) {
            self.faults = self.faults.saturating_add(1);
            return Err(Failed);
        }
        let count = fill_front(&self.bytes, self.at, buffer);
        self.at += count;
        Ok(count)
    }
}

/// A source in memory that never fails.
#[derive(Drop)]
pub struct SteadySource {
    bytes: Vec<u8>,
    at: usize,
}

impl Model for SteadySource {
    ghost use Rattle.std.specs.Prelude.{◌≤◌, List, ℕ, length, drop};

    ghost Value = { List ℕ };

    ghost view = { λ s. drop s.at s.bytes.items };

    ghost invariant = { λ s. s.at ≤ length s.bytes.items };
}

impl SteadySource {
    /// A source of these bytes. Its count of faults is the constant 0.
    pub fn new(bytes: Vec<u8>) -> Self
        ensures bytes { result ≡ bytes.items }
        ensures no_faults { (left : List ℕ) → ⟦<SteadySource as Source>⟧.faults left ≡ 0 }
    {
        SteadySource { bytes, at: 0 }
    }
}

impl Source for SteadySource {
    ghost use Rattle.std.specs.Prelude.{true};

    ghost honest = { λ _. true };

    ghost left = { λ s. s };

    ghost faults = { λ _. 0 };

    fn read(&mut self, buffer: &mut [u8]) -> Result<usize, Failed>
        ensures fits { IfOk result (λ n. n ≤ length buffer.old) }
        ensures bytes { IfOk result (λ n. IsFrontRead n self.old self.new buffer.old buffer.new) }
        ensures end { 0 < length buffer.old → IfOk result (λ n. (n ≡ 0) ↔ (self.old ≡ [])) }
        ensures steady { IsOk result }
    {
        let count = fill_front(&self.bytes, self.at, buffer);
        self.at += count;
        Ok(count)
    }
}

/// A sink in memory, with the numbers of the calls of `write` that fail, counted from 1. A call that finds no memory
/// fails too.
#[derive(Drop)]
pub struct MemorySink {
    written: Vec<u8>,
    failing: Vec<u64>,
    calls: u64,
    faults: u64,
}

impl Model for MemorySink {
    ghost use Rattle.io_memory.specs.Kept.{Tape};

    ghost Value = { Tape };

    ghost view = { λ s. record { text = s.written.items; failing = s.failing.items; calls = s.calls; faults = s.faults } };
}

impl MemorySink {
    /// A sink on which nothing is written. A call of `write` fails where its number is one of `failing`.
    pub fn new(alloc: Global, failing: Vec<u64>) -> Self
        ensures { result ≡ record { text = []; failing = failing.items; calls = 0; faults = 0 } }
    {
        MemorySink {
            written: Vec::new(alloc),
            failing,
            calls: 0,
            faults: 0,
        }
    }

    /// What was written.
    pub fn text(&self) -> &[u8]
        ensures { result.now ≡ self.now.text }
    {
        &self.written
    }
}

impl Sink for MemorySink {
    ghost use Rattle.std.specs.Prelude.{true};

    ghost honest = { λ _. true };

    ghost text = { λ s. s.text };

    ghost faults = { λ s. s.faults };

    fn write(&mut self, bytes: &[u8]) -> Result<usize, Failed>
        ensures whole { IfOk result (λ n. n ≡ length bytes.now) }
        ensures appended { OnOk result (self.new.text ≡ self.old.text ++ bytes.now) }
        ensures failed { OnErr result (self.new.text ≡ self.old.text) }
        ensures later { self.old.faults ≤ self.new.faults }
        ensures cause { OnErr result (Rose self.old.faults self.new.faults) }
        ensures unmoved { OnOk result (self.new.faults ≡ self.old.faults) }
        ensures fails { Contains self.old.failing self.new.calls → IsErr result }
        ensures counted { self.new.calls ≡ next_count self.old.calls }
        ensures failing { self.new.failing ≡ self.old.failing }
    {
        self.calls = self.calls.saturating_add(1);
        if self.failing.contains(&self.calls) || self.written.extend_from_slice(bytes).is_err() {
            self.faults = self.faults.saturating_add(1);
            return Err(Failed);
        }
        Ok(bytes.len())
    }
}
