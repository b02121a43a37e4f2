//! What was made of a list so far, entry by entry.
ghost use Rattle.std.specs.Prelude.{◌≡◌, ◌<◌, ◌≤◌, ◌^◌, ◌+◌, ◌∷◌, ◌++◌, [], ℕ, List, OnOk, reverse};
ghost use Rattle.aid_filings.specs.declared.filing.Filing.{Filing as AnyFiling};
ghost use Rattle.log_stamps.specs.Entries.{entries, stamps_of, with_stamp};
ghost use Rattle.log_stamps.specs.declared.entry.StampedEntry.{StampedEntry as Entry};
ghost use Rattle.office_amends.specs.Lines.{answer_line};
ghost use Rattle.office_amends.specs.Stood.{Makes, stood};
ghost use Rattle.office_history.specs.Answer.{answer_of};
ghost use Rattle.office_amends.specs.Texts.{told_behind};

use crate::lines::{put_again, put_changed, put_refused};
use aid_filings::{Filing, Outcome, Response};
use aid_stamps::Stamp;
use office_index::Office;
use std::alloc::{AllocError, Global};

/// What was made of a list: an office of the entries that stand, each behind those that stand before it; their stamps, the oldest
/// first; what is told of all; and how many entries there are.
#[derive(Drop)]
pub struct Amended {
    pub office: Office,
    pub stamps: Vec<Stamp>,
    pub text: Vec<u8>,
    pub position: u64,
}

impl Amended {
    /// What is made of no list.
    pub(crate) fn new(alloc: Global) -> Amended
        ensures { Makes [] [] result }
    {
        Amended {
            office: Office::new(alloc),
            stamps: Vec::new(alloc),
            text: Vec::new(alloc),
            position: 0,
        }
    }

    /// Files an entry, and tells its answer. `was` is the outcome of its admission to the old list, `None` where it wasn't in it. An `Err`
    /// is want of memory.
    pub(crate) fn file(
        &mut self,
        stamp: &Stamp,
        filing: Filing,
        was: Option<Outcome>,
    ) -> Result<(), AllocError>
        requires few { self.old.position + 1 < 2 ^ 64 }
        ensures makes { (list : List (Entry AnyFiling)) (text : List ℕ) → Makes list text self.old
            → OnOk result (Makes (with_stamp stamp.now filing ∷ list) (text ++ told_behind list filing was) self.new) }
        ensures position { OnOk result (self.new.position ≡ self.old.position + 1) }
    {
        self.office.reserve(1)?;
        let position = self.position + 1;
        let response = self.office.judge(&filing);
        put_answer(position, &filing, was, &response, &mut self.text)?;
        self.keep(stamp, filing, &response)?;
        self.position = position;
        Ok(())
    }

    // Keeps an entry where it is admitted.
    fn keep(&mut self, stamp: &Stamp, filing: Filing, response: &Response) -> Result<(), AllocError>
        requires answer { answer_of self.old.office.history filing ≡ response.now }
        requires room { 1 ≤ self.old.office.spare }
        ensures office { (list : List (Entry AnyFiling)) → self.old.office.history ≡ entries (stood list)
            → OnOk result (self.new.office.history ≡ entries (stood (with_stamp stamp.now filing ∷ list))) }
        ensures stamps { (list : List (Entry AnyFiling)) → self.old.office.history ≡ entries (stood list) → self.old.stamps.items ≡ reverse (stamps_of (stood list))
            → OnOk result (self.new.stamps.items ≡ reverse (stamps_of (stood (with_stamp stamp.now filing ∷ list)))) }
        ensures told { self.new.text ≡ self.old.text }
        ensures position { self.new.position ≡ self.old.position }
    {
        if let Response::Admit(outcome) = response {
            self.stamps.push(*stamp)?;
            self.office.admit_with(filing, *outcome);
        }
        Ok(())
    }
}

// Appends the line about the answer to a filing.
fn put_answer(
    position: u64,
    filing: &Filing,
    was: Option<Outcome>,
    response: &Response,
    out: &mut Vec<u8>,
) -> Result<(), AllocError>
    ensures { OnOk result (out.new.items ≡ out.old.items ++ answer_line position filing.now was response.now) }
{
    match response {
        Response::Refused(refusal) => put_refused(position, filing, refusal, out),
        Response::Again { position: at, .. } => put_again(position, filing, *at, out),
        Response::Admit(now) => match was {
            Some(was) => put_changed(position, filing, &was, now, out),
            None => Ok(()),
        },
        Response::Quoted(_) | Response::Standing(_) => Ok(()),
    }
}
