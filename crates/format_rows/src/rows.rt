// The rows of a text.
ghost use Rattle.std.specs.Prelude.{◌≡◌, ◌≢◌, ◌≤◌, ◌+◌, [], ◌∷◌, true, IfOk, MatchOption, OnErr, length};
ghost use Rattle.csv.specs.Reading.{stops_reader};
ghost use Rattle.format_rows.specs.Left.{ended_lines, ends_line};
ghost use Rattle.format_rows.specs.Meanings.{meanings, said_of};

use crate::error::RowError;
use crate::form::RowReader;
use csv::{ByteRecord, ErrorKind, Reader, ReaderBuilder};
use std::alloc::{AllocError, Global};
use std::io::Cursor;
use std::marker::{Model, PhantomData};

/// The rows of a text that were not taken yet. A contract sees what they mean. They are read as they are taken, each into
/// the room of the one before it.
#[derive(Drop)]
pub struct TextRows<M: RowReader> {
    alloc: Global,
    reader: Reader<Cursor<Vec<u8>>>,
    texts: ByteRecord,
    number: u32,
    at_most: u32,
    ended: bool,
    form: PhantomData<M>,
}

impl<M: RowReader> Model for TextRows<M> {
    ghost use Rattle.std.specs.Prelude.{◌≡◌, List, Result, Some, false};
    ghost use Rattle.std.specs.Io.Cursor.{cursor_remaining};
    ghost use Rattle.format_rows.specs.Left.{IsNumbered, IsReading, left_of};
    ghost use Rattle.format_rows.specs.Meanings.{meanings_from};
    ghost use Rattle.format_rows.specs.declared.error.RowError.{RowError};

    ghost Value = { List (Result M.Said RowError) };

    ghost view = { λ r. meanings_from M.meaning r.number (left_of (cursor_remaining (λ v. Some v.items)) r.ended r.reader) };

    ghost invariant = { λ r. (r.ended ≡ false → IsReading (cursor_remaining (λ v. Some v.items)) r.reader)
        × IsNumbered r.number (left_of (cursor_remaining (λ v. Some v.items)) r.ended r.reader) r.at_most };
}

/// Why a row was not read.
#[derive(Clone, Copy, PartialEq, Eq)]
enum Fault {
    /// Memory ran out, or the reader underneath failed, which one over a vector does not do.
    Stopped,
    /// Anything else.
    Other,
}

impl<M: RowReader> TextRows<M> {
    /// The rows of a text of comma-separated values. It takes no memory.
    pub fn new(alloc: Global, text: Vec<u8>) -> TextRows<M>
        requires { length text.items ≤ 16777216 }
        ensures { result ≡ meanings M.meaning text.items }
    {
        let at_most = ended_lines_in(&text) + 1;
        let reader = ReaderBuilder::new()
            .has_headers(false)
            .flexible(true)
            .from_reader(alloc, Cursor::new(text));
        TextRows {
            alloc,
            reader,
            texts: ByteRecord::new(alloc),
            number: 1,
            at_most,
            ended: false,
            form: PhantomData,
        }
    }

    /// At most so many rows are left: one more than the text has lines that something stands in and that have an end. A
    /// line feed or carriage return in quotes ends one too, empty lines count for nothing, and it does not fall as rows
    /// are taken.
    pub fn at_most(&self) -> u32
        ensures bound { length self.now ≤ result }
        ensures few { result ≤ 16777217 }
    {
        self.at_most
    }

    /// The next row, what it gives or the error that says why it gives nothing, and `None` behind the last. An `Err` is want of memory,
    /// and then no rows are left.
    pub fn next(&mut self) -> Result<Option<Result<M::Entry, RowError>>, AllocError>
        ensures row { IfOk result (λ next. MatchOption next ((self.old ≡ []) × (self.new ≡ [])) (λ row. self.old ≡ said_of M.said row ∷ self.new)) }
        ensures err { OnErr result (self.new ≡ []) }
    {
        match self.take() {
            Ok(row) => Ok(row),
            Err(_) => Err(AllocError),
        }
    }

    // The next row, which nothing but want of memory keeps.
    fn take(&mut self) -> Result<Option<Result<M::Entry, RowError>>, Fault>
        ensures row { IfOk result (λ next. MatchOption next ((self.old ≡ []) × (self.new ≡ [])) (λ row. self.old ≡ said_of M.said row ∷ self.new)) }
        ensures err { OnErr result (self.new ≡ []) }
        ensures fault { result ≢ Err Fault.Other }
    {
        if self.ended {
            return Ok(None);
        }
        match self.reader.read_byte_record(&mut self.texts) {
            Ok(true) => {
                let Ok(row) = M::read(self.alloc, self.number, &self.texts) else {
                    self.ended = true;
                    return Err(Fault::Stopped);
                };
                self.number += 1;
                Ok(Some(row))
            }
            Ok(false) => {
                self.ended = true;
                Ok(None)
            }
            Err(error) => {
                self.ended = true;
                Err(fault_of(error.kind()))
            }
        }
    }
}

// How many lines of a text have an end, the empty ones left out: a byte ends one where the byte before it ends none.
fn ended_lines_in(text: &[u8]) -> u32
    requires { length text.now ≤ 16777216 }
    ensures ends { result ≡ ended_lines text.now }
    ensures few { result ≤ 16777216 }
{
    let mut lines = 0;
    let mut before = b'\n';
    for byte in text {
        if ends_line(*byte) && !ends_line(before) {
            lines += 1;
        }
        before = *byte;
    }
    lines
}

// Whether a byte ends a line.
fn ends_line(byte: u8) -> bool
    ensures { result ≡ ends_line byte }
{
    byte == b'\r' || byte == b'\n'
}

// The fault of an error.
fn fault_of(kind: &ErrorKind) -> Fault
    ensures { stops_reader kind.now ≡ true → result ≡ Fault.Stopped }
{
    match kind {
        ErrorKind::Io(_) => Fault::Stopped,
        ErrorKind::OutOfMemory => Fault::Stopped,
        _ => Fault::Other,
    }
}
