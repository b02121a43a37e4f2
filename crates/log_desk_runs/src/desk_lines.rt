// The text of many desks that filed at once.
ghost use Rattle.std.specs.Prelude.{◌≡◌, ◌+◌, ◌≤◌, ◌++◌, IfOk, codes, decimal, length};
ghost use Rattle.std.specs.List.{list_any};
ghost use Rattle.arrayvec.specs.ArrayString.{array_string_len};
ghost use Rattle.log_desks.specs.DeskTexts.{desk_text, stop_at, stop_text as stopped_text};
ghost use Rattle.log_desk_runs.specs.DeskTexts.{admitted_line as admitted_line_of, admitted_text, desk_prefix as desk_prefix_of, desks_status as desks_status_of, desks_text, had_disk_fault, had_no_memory, stop_line, stop_words};
ghost use Rattle.log_desk_runs.specs.Names.{names_of};
ghost use Rattle.log_runs.specs.Puts.{Puts};

use crate::EntryMatch;
use crate::names::name_of;
use arrayvec::ArrayString;
use io_traits::{Failed, Sink};
use itoa::Buffer;
use log_desks::{Desk, DeskEnd, DeskStop};
use log_machine::{RowName, Rows, SingleEntryMachine, StateMachine};
use log_runs::put;
use std::alloc::{AllocError, Global};

// Appends a number.
fn push_number(line: &mut ArrayString<80>, number: u64)
    requires room { array_string_len line.old + 20 ≤ 80 }
    ensures bytes { line.new.bytes ≡ line.old.bytes ++ decimal number }
    ensures len { array_string_len line.new ≤ array_string_len line.old + 20 }
{
    let mut digits = Buffer::new();
    line.push_str(digits.format(number));
}

/// What stands before each line of a desk.
pub fn desk_prefix(alloc: Global, number: u32) -> Result<Vec<u8>, AllocError>
    ensures { IfOk result (λ prefix. prefix.items ≡ desk_prefix_of number) }
{
    let mut prefix = ArrayString::<80>::new();
    prefix.push_str("desk ");
    push_number(&mut prefix, u64::from(number));
    prefix.push_str(" ");
    prefix.as_bytes().to_vec(alloc)
}

// The end of a line, behind the number of a row.
fn line_behind(row: u64, rest: &str) -> ArrayString<80>
    requires { length rest.now ≤ 20 }
    ensures { result.bytes ≡ decimal row ++ rest.now }
{
    let mut line = ArrayString::<80>::new();
    push_number(&mut line, row);
    line.push_str(rest);
    line
}

// The end of a line that names a position.
fn line_with_place(row: u64, position: u32) -> ArrayString<80>
    ensures { result.bytes ≡ decimal row ++ codes " fault disk " ++ decimal position ++ codes "\n" }
{
    let mut line = ArrayString::<80>::new();
    push_number(&mut line, row);
    line.push_str(" fault disk ");
    push_number(&mut line, u64::from(position));
    line.push_str("\n");
    line
}

// The row at which a desk stopped, and why.
fn stop_text(row: u64, stop: DeskStop) -> ArrayString<80>
    ensures { result.bytes ≡ stop_words row stop }
{
    match stop {
        DeskStop::DiskFault { undecided: None } => line_behind(row, " fault disk none\n"),
        DeskStop::DiskFault {
            undecided: Some(position),
        } => line_with_place(row, position),
        DeskStop::NoMemory => line_behind(row, " fault memory\n"),
    }
}

// The line of an entry that was admitted.
fn admitted_line(position: u64, by: RowName) -> ArrayString<80>
    ensures { result.bytes ≡ admitted_line_of position by }
{
    let mut line = ArrayString::<80>::new();
    line.push_str("admitted ");
    push_number(&mut line, position);
    line.push_str(" ");
    push_number(&mut line, u64::from(by.desk));
    line.push_str(" ");
    push_number(&mut line, u64::from(by.row));
    line.push_str("\n");
    line
}

// Writes the row at which a desk stopped, and why.
fn put_row<K: Sink>(row: u32, stop: DeskStop, out: &mut K) -> Result<(), Failed>
    ensures { Puts K.Sink (stop_words row stop) result out.old out.new }
{
    put(out, stop_text(u64::from(row), stop).as_bytes())
}

// Writes the last line of a desk that stopped at a row.
fn put_stop<K: Sink>(prefix: &[u8], row: u32, stop: DeskStop, out: &mut K) -> Result<(), Failed>
    ensures { Puts K.Sink (prefix.now ++ stop_words row stop) result out.old out.new }
{
    match put(out, prefix) {
        Ok(()) => put_row(row, stop, out),
        Err(fault) => Err(fault),
    }
}

// Writes the last line of a desk, where it stopped.
fn put_last<R: SingleEntryMachine, L: Rows<R>, K: Sink>(
    desk: &Desk<R, L>,
    out: &mut K,
) -> Result<(), Failed>
    ensures { Puts K.Sink (stopped_text (stop_line desk.now.prefix) (stop_at desk.now.number desk.now.answered desk.now.ended)) result out.old out.new }
{
    match desk.stopped() {
        Some((at, stop)) => put_stop(desk.prefix(), at.row, stop, out),
        None => Ok(()),
    }
}

// Writes all lines of a desk.
fn put_desk<R: SingleEntryMachine, L: Rows<R>, K: Sink>(
    desk: &Desk<R, L>,
    out: &mut K,
) -> Result<(), Failed>
    ensures { Puts K.Sink (desk_text (stop_line desk.now.prefix) desk.now) result out.old out.new }
{
    match put(out, desk.text()) {
        Ok(()) => put_last(desk, out),
        Err(fault) => Err(fault),
    }
}

// Writes the lines of all desks, in desk order.
fn put_desks<R: SingleEntryMachine, L: Rows<R>, K: Sink>(
    desks: &[Desk<R, L>],
    out: &mut K,
) -> Result<(), Failed>
    ensures { Puts K.Sink (desks_text desks.now) result out.old out.new }
{
    for i in 0..desks.len() {
        match put_desk(&desks[i], out) {
            Ok(()) => {}
            Err(fault) => return Err(fault),
        }
    }
    Ok(())
}

// Writes the line of an entry that was admitted.
fn put_entry<K: Sink>(position: u64, by: &RowName, out: &mut K) -> Result<(), Failed>
    ensures { Puts K.Sink (admitted_line_of position by.now) result out.old out.new }
{
    put(out, admitted_line(position, *by).as_bytes())
}

// Writes a line for each entry that was admitted, behind so many that stood before. These rows filed them.
fn put_entries<R: SingleEntryMachine, L: Rows<R>, C: EntryMatch<R>, K: Sink>(
    desks: &[Desk<R, L>],
    front: u32,
    rows: &[RowName],
    out: &mut K,
) -> Result<(), Failed>
    ensures { Puts K.Sink (admitted_text (front + 1) (names_of C.same desks.now (front + 1) rows.now)) result out.old out.new }
{
    for i in 0..rows.len() {
        let position = u64::from(front) + 1 + i as u64;
        let name = name_of::<R, L, C>(desks, position, rows[i]);
        match put_entry(position, &name, out) {
            Ok(()) => {}
            Err(fault) => return Err(fault),
        }
    }
    Ok(())
}

/// Writes the lines of all desks, in desk order, and then a line for each entry that was admitted, behind so many that
/// stood before. These rows filed them.
pub fn put_all<R: SingleEntryMachine, L: Rows<R>, C: EntryMatch<R>, K: Sink>(
    desks: &[Desk<R, L>],
    front: u32,
    rows: &[RowName],
    out: &mut K,
) -> Result<(), Failed>
    ensures { Puts K.Sink (desks_text desks.now ++ admitted_text (front + 1) (names_of C.same desks.now (front + 1) rows.now)) result out.old out.new }
{
    match put_desks(desks, out) {
        Ok(()) => put_entries::<R, L, C, K>(desks, front, rows, out),
        Err(fault) => Err(fault),
    }
}

// Whether the desk had a fault of the disk.
fn is_faulted<R: SingleEntryMachine, L: Rows<R>>(desk: &Desk<R, L>) -> bool
    ensures { result ≡ had_disk_fault desk.now.ended }
{
    matches!(desk.ended().1, DeskEnd::Stopped(DeskStop::DiskFault { .. }))
}

// Whether the desk had no memory.
fn is_starved<R: SingleEntryMachine, L: Rows<R>>(desk: &Desk<R, L>) -> bool
    ensures { result ≡ had_no_memory desk.now.ended }
{
    matches!(desk.ended().1, DeskEnd::Stopped(DeskStop::NoMemory))
}

// Whether a desk had a fault of the disk.
fn any_faulted<R: SingleEntryMachine, L: Rows<R>>(desks: &[Desk<R, L>]) -> bool
    ensures { result ≡ list_any (λ d. had_disk_fault d.ended) desks.now }
{
    desks.iter().any(|desk| is_faulted(desk))
}

// Whether a desk had no memory.
fn any_starved<R: SingleEntryMachine, L: Rows<R>>(desks: &[Desk<R, L>]) -> bool
    ensures { result ≡ list_any (λ d. had_no_memory d.ended) desks.now }
{
    desks.iter().any(|desk| is_starved(desk))
}

/// The status where all was written.
pub fn desks_status<R: SingleEntryMachine, L: Rows<R>>(desks: &[Desk<R, L>]) -> u8
    ensures { result ≡ desks_status_of desks.now }
{
    if any_faulted(desks) {
        5
    } else if any_starved(desks) {
        9
    } else {
        0
    }
}
