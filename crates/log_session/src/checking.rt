// Rows are looked at, and filed nowhere.
ghost use Rattle.std.specs.Prelude.{◌≡◌, ◌≢◌, ◌≤◌, ◌<◌, ◌+◌, ◌^◌, ◌∷◌, [], Err, IfErr, OnOk, length};
ghost use Rattle.io_traits.specs.Faults.{Rose};
ghost use Rattle.log_session.specs.Checks.{Checks, LooksAt, check_line, errors_in};

use crate::session::read_rows;
use crate::{INPUT_LIMIT, ReadStop};
use io_traits::{Sink, Source, write_whole};
use log_machine::{RowFormat, Rows, StateMachine};
use std::alloc::{AllocError, Global};

/// How many rows were looked at, and how many of them are no ask.
#[derive(Clone, Copy, Debug, PartialEq, Eq)]
pub struct CheckTally {
    pub rows: u32,
    pub errors: u32,
}

impl CheckTally {
    // Counts one row more.
    fn count<A, E>(&mut self, row: &Result<A, E>)
        requires few { self.old.rows + 1 < 2 ^ 32 }
        requires no_more { self.old.errors ≤ self.old.rows }
        ensures rows { self.new.rows ≡ self.old.rows + 1 }
        ensures errors { self.new.errors ≡ self.old.errors + errors_in (row.now ∷ []) }
        ensures no_more { self.new.errors ≤ self.new.rows }
    {
        self.rows += 1;
        if row.is_err() {
            self.errors += 1;
        }
    }
}

/// Why rows weren't looked at to the last.
#[derive(Clone, Copy, Debug, PartialEq, Eq)]
pub enum CheckStop {
    /// The input wasn't read.
    Reading(ReadStop),
    /// A write failed.
    Write,
    /// There is no memory.
    NoMemory,
}

// Puts the line of a row in place of what the vector holds.
fn put_check<R: StateMachine, F: RowFormat<R>>(
    number: u32,
    row: Result<R::Operation, <F::Rows as Rows<R>>::Error>,
    line: &mut Vec<u8>,
) -> Result<(), AllocError>
    ensures line { OnOk result (line.new.items ≡ check_line F.Rows.texts F.fine_line number row) }
{
    line.clear();
    match row {
        Ok(_) => F::put_fine(number, line),
        Err(error) => F::Rows::put_error(&error, line),
    }
}

// Looks at the rows that are left.
fn look<K: Sink, R: StateMachine, F: RowFormat<R>>(
    alloc: Global,
    mut rows: F::Rows,
    out: &mut K,
) -> Result<CheckTally, CheckStop>
    requires few { length (F.Rows.left rows) < 2 ^ 32 }
    ensures looks { LooksAt F.Rows.texts F.fine_line (record { honest = K.honest out.old; before = K.text out.old; after = K.text out.new }) (F.Rows.left rows) result }
    ensures write_fault { result ≡ Err CheckStop.Write → Rose (K.faults out.old) (K.faults out.new) }
    ensures unmoved { OnOk result (K.faults out.new ≡ K.faults out.old) }
    ensures unmoved_err { IfErr result (λ stop. stop ≢ CheckStop.Write → K.faults out.new ≡ K.faults out.old) }
    ensures later { K.faults out.old ≤ K.faults out.new }
    ensures honest { K.honest out.new ≡ K.honest out.old }
{
    let mut line = Vec::new(alloc);
    let mut tally = CheckTally { rows: 0, errors: 0 };
    loop {
        let row = match rows.next() {
            Ok(Some(row)) => row,
            Ok(None) => return Ok(tally),
            Err(_) => return Err(CheckStop::NoMemory),
        };
        tally.count(&row);
        if put_check::<R, F>(tally.rows, row, &mut line).is_err() {
            return Err(CheckStop::NoMemory);
        }
        if write_whole(out, &line).is_err() {
            return Err(CheckStop::Write);
        }
    }
}

/// Reads the whole input, and writes for each of its rows a line that says whether it is an ask. Nothing is filed.
pub fn check<S: Source, K: Sink, R: StateMachine, F: RowFormat<R>>(
    alloc: Global,
    forms: &F,
    input: &mut S,
    out: &mut K,
) -> Result<CheckTally, CheckStop>
    ensures checks { Checks F.Rows.texts (F.Rows.rows_of forms.now) F.fine_line INPUT_LIMIT
        (record { honest = S.honest input.old; before = S.left input.old; after = S.left input.new })
        (record { honest = K.honest out.old; before = K.text out.old; after = K.text out.new }) result }
    ensures read_fault { result ≡ Err (CheckStop.Reading ReadStop.Read) → Rose (S.faults input.old) (S.faults input.new) }
    ensures write_fault { result ≡ Err CheckStop.Write → Rose (K.faults out.old) (K.faults out.new) }
    ensures source_unmoved { OnOk result (S.faults input.new ≡ S.faults input.old) }
    ensures sink_unmoved { OnOk result (K.faults out.new ≡ K.faults out.old) }
    ensures source_unmoved_err { IfErr result (λ stop. stop ≢ CheckStop.Reading ReadStop.Read → S.faults input.new ≡ S.faults input.old) }
    ensures sink_unmoved_err { IfErr result (λ stop. stop ≢ CheckStop.Write → K.faults out.new ≡ K.faults out.old) }
    ensures source_later { S.faults input.old ≤ S.faults input.new }
    ensures sink_later { K.faults out.old ≤ K.faults out.new }
    ensures source_honest { S.honest input.new ≡ S.honest input.old }
    ensures sink_honest { K.honest out.new ≡ K.honest out.old }
{
    match read_rows::<S, R, F>(alloc, forms, input) {
        Ok(rows) => look::<K, R, F>(alloc, rows, out),
        Err(stop) => Err(CheckStop::Reading(stop)),
    }
}
