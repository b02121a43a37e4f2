//! The edges of the process: what std reads and writes. They tell nothing of content.
ghost use Rattle.std.specs.Prelude.{◌≡◌, false};

use crate::retried::{read_some, write_some};
use io_traits::{Failed, Sink, Source};
use std::io::{Read, Write};

/// A reader of std, with a count of its faults.
#[derive(Drop)]
pub struct HostReader<R> {
    inner: R,
    faults: u64,
}

impl<R: Read> HostReader<R> {
    /// The edge of a reader.
    pub fn new(inner: R) -> Self
        ensures silent { ⟦<HostReader<R> as Source>⟧.honest result ≡ false }
        ensures no_faults { ⟦<HostReader<R> as Source>⟧.faults result ≡ 0 }
    {
        HostReader { inner, faults: 0 }
    }
}

impl<R: Read> Source for HostReader<R> {
    ghost use Rattle.std.specs.Prelude.{[]};

    ghost honest = { λ _. false };

    ghost left = { λ _. [] };

    ghost faults = { λ e. e.faults };

    fn read(&mut self, buffer: &mut [u8]) -> Result<usize, Failed> {
        match read_some(&mut self.inner, buffer) {
            Ok(count) => Ok(count),
            Err(_) => {
                self.faults = self.faults.saturating_add(1);
                Err(Failed)
            }
        }
    }
}

/// A writer of std, with a count of its faults.
#[derive(Drop)]
pub struct HostWriter<W> {
    inner: W,
    faults: u64,
}

impl<W: Write> HostWriter<W> {
    /// The edge of a writer.
    pub fn new(inner: W) -> Self
        ensures silent { ⟦<HostWriter<W> as Sink>⟧.honest result ≡ false }
        ensures no_faults { ⟦<HostWriter<W> as Sink>⟧.faults result ≡ 0 }
    {
        HostWriter { inner, faults: 0 }
    }
}

impl<W: Write> Sink for HostWriter<W> {
    ghost use Rattle.std.specs.Prelude.{[]};

    ghost honest = { λ _. false };

    ghost text = { λ _. [] };

    ghost faults = { λ e. e.faults };

    fn write(&mut self, bytes: &[u8]) -> Result<usize, Failed> {
        match write_some(&mut self.inner, bytes) {
            Ok(count) if count > 0 || bytes.is_empty() => Ok(count),
            _ => {
                self.faults = self.faults.saturating_add(1);
                Err(Failed)
            }
        }
    }
}
