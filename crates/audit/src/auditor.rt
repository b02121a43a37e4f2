//! The audit of an exported history.
ghost use Rattle.std.specs.Prelude.{◌≡◌, ◌↔◌, ◌≤◌, true, List, ℕ, IsTrue, length, IfOk};
ghost use Rattle.office_export.specs.Exports.{lines_of};
ghost use Rattle.audit.specs.Findings.{AreGood, FindsBy};
ghost use Rattle.audit.specs.Steps.{IsRead, Keeps, Told, nothing};

use crate::finding::{FEWER, Finding, NO_END, OTHER_SEAL};
use crate::good_lines::GoodLines;
use crate::line::judge_line;
use crate::lists::AuditedList;
use crate::note::Note;
use aid_seals::Seal;
use office_export::{first_line, seal_of_filings};
use std::alloc::{AllocError, Global};

/// What a text is found to be, held against a note, where there is one. The text is read line by line from its beginning, and nothing
/// that it says is taken on trust: the law is asked before each filing, and for each standing. An `Err` is want of memory.
pub fn audit<L: AuditedList>(
    alloc: Global,
    text: &[u8],
    note: Option<Note>,
) -> Result<Finding, AllocError>
    requires { length text.now ≤ 1073741824 }
    ensures { IfOk result (λ finding. FindsBy L.most (lines_of text.now) note finding) }
{
    let mut lines = GoodLines::<L>::new(alloc);
    let (line, cause) = judge_lines(alloc, &mut lines, text)?;
    match cause {
        Some(cause) => Ok(Finding::No { line, cause }),
        None => held_against(alloc, &lines, line, note),
    }
}

// Judges the lines of a text in order: how many there are, where all are good and the last is the end line; or the first bad one, and
// why.
fn judge_lines<L: AuditedList>(
    alloc: Global,
    lines: &mut GoodLines<L>,
    text: &[u8],
) -> Result<(u32, Option<u8>), AllocError>
    requires short { length text.now ≤ 1073741824 }
    requires first { Keeps L.filings lines.old nothing }
    ensures { IfOk result (λ read. IsRead L.most L.filings (lines_of text.now) lines.new read.0 read.1) }
{
    let mut rest = text;
    let mut number = 1;
    while let Some((line, behind)) = first_line(rest) {
        if let Some(cause) = judge_line(alloc, lines, line)? {
            return Ok((number, Some(cause)));
        }
        rest = behind;
        number += 1;
    }
    if lines.ended {
        Ok((number - 1, None))
    } else {
        Ok((number, Some(NO_END)))
    }
}

// What is found of so many good lines to the end line, held against a note, where there is one.
fn held_against<L: AuditedList>(
    alloc: Global,
    lines: &GoodLines<L>,
    line: u32,
    note: Option<Note>,
) -> Result<Finding, AllocError>
    requires few { length (L.filings lines.now.list) ≤ L.most }
    requires paired { length lines.now.stamps.items ≡ length (L.filings lines.now.list) }
    ensures { (all : List (List ℕ)) (told : Told) → AreGood L.most all told.past told.stamps told.asked true → Keeps L.filings lines.now told → line ≡ length all
        → IfOk result (λ finding. FindsBy L.most all note finding) }
{
    // How many it takes tells that the count fits.
    let _most = L::most();
    let filings = lines.list.filings();
    let stamps = lines.stamps.as_slice();
    if let Some(note) = note {
        let count = note.count as usize;
        if filings.len() < count {
            return Ok(Finding::No { line, cause: FEWER });
        }
        let front = seal_of_filings(alloc, &filings[..count], &stamps[..count])?;
        if !is_same_seal(&front, &note.seal) {
            return Ok(Finding::No {
                line,
                cause: OTHER_SEAL,
            });
        }
    }
    let seal = seal_of_filings(alloc, filings, stamps)?;
    Ok(Finding::Yes {
        filings: filings.len() as u32,
        standings: lines.standings,
        seal,
    })
}

// Whether two seals are one.
fn is_same_seal(one: &Seal, other: &Seal) -> bool
    ensures { IsTrue result ↔ (one.now.bytes ≡ other.now.bytes) }
{
    one.bytes == other.bytes
}
