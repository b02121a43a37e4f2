//! What an audit finds, as a line.
ghost use Rattle.std.specs.Prelude.{◌≡◌, ◌++◌, IfOk, OnOk, codes, decimal};
ghost use Rattle.audit.specs.Answers.{finding_line as line_of_finding};
ghost use Rattle.audit.specs.declared.finding.Finding.TheVariants.{No, Yes};

use crate::answering::Answering;
use crate::lists::AuditedList;
use crate::note::Note;
use crate::{Finding, audit};
use aid_seals::Seal;
use itoa::Buffer;
use std::alloc::{AllocError, Global};
use std::marker::PhantomData;

/// The line of what an audit finds in the whole input, held against a note, where there is one.
#[derive(Drop)]
pub struct AuditAnswers<L> {
    note: Option<Note>,
    of: PhantomData<L>,
}

impl<L: AuditedList> AuditAnswers<L> {
    /// Against this note, or against none.
    pub fn new(note: Option<Note>) -> Self
        ensures { result.note ≡ note }
    {
        AuditAnswers {
            note,
            of: PhantomData,
        }
    }
}

impl<L: AuditedList> Answering for AuditAnswers<L> {
    ghost use Rattle.audit.specs.Answers.{IsFindingText};

    ghost answers = { λ it. IsFindingText L.most it.note };

    ghost limit = { λ it. L.limit };

    fn limit(&self) -> usize {
        L::limit()
    }

    fn answer(&self, alloc: Global, input: Vec<u8>) -> Result<Vec<u8>, AllocError> {
        // The limit tells that the input fits.
        let _limit = L::limit();
        let finding = audit::<L>(alloc, input.as_slice(), self.note)?;
        finding_line(alloc, &finding)
    }
}

// The line of a finding. An `Err` is want of memory.
fn finding_line(alloc: Global, finding: &Finding) -> Result<Vec<u8>, AllocError>
    ensures { IfOk result (λ text. text.items ≡ line_of_finding finding.now) }
{
    match *finding {
        Finding::Yes {
            filings,
            standings,
            seal,
        } => yes_line(alloc, filings, standings, &seal),
        Finding::No { line, cause } => no_line(alloc, line, cause),
    }
}

// The line of an export.
fn yes_line(alloc: Global, filings: u32, standings: u32, seal: &Seal) -> Result<Vec<u8>, AllocError>
    ensures { IfOk result (λ text. text.items ≡ line_of_finding (Yes filings standings seal.now)) }
{
    let digits = hex::encode(alloc, seal.bytes)?;
    let mut text = Vec::new(alloc);
    put_counts(b"yes ", filings, standings, &mut text)?;
    text.push(b' ')?;
    text.extend_from_slice(digits.as_str().as_bytes())?;
    text.push(b'\n')?;
    Ok(text)
}

// The line of a bad line and its cause.
fn no_line(alloc: Global, line: u32, cause: u8) -> Result<Vec<u8>, AllocError>
    ensures { IfOk result (λ text. text.items ≡ line_of_finding (No line cause)) }
{
    let mut text = Vec::new(alloc);
    put_counts(b"no ", line, u32::from(cause), &mut text)?;
    text.push(b'\n')?;
    Ok(text)
}

// Appends a word and two numbers behind it.
fn put_counts(word: &[u8], one: u32, other: u32, text: &mut Vec<u8>) -> Result<(), AllocError>
    ensures { OnOk result (text.new.items ≡ text.old.items ++ word.now ++ decimal one ++ codes " " ++ decimal other) }
{
    let mut digits = Buffer::new();
    text.extend_from_slice(word)?;
    text.extend_from_slice(digits.format(one).as_bytes())?;
    text.push(b' ')?;
    text.extend_from_slice(digits.format(other).as_bytes())?;
    Ok(())
}
