//! Legal filings as an audit keeps them: as a plain list, over which the law is folded afresh for each question, or with the office's
//! index, which is proved to answer as the law does.
ghost use Rattle.std.specs.Prelude.{◌≡◌, ◌<◌, ◌≤◌, ℕ, List, [], length, reverse, Some, IfOk, if◌then◌else◌};
ghost use Rattle.std.specs.List.{list_any};
ghost use Rattle.aid_filings.specs.declared.filing.Filing.{Filing as AnyFiling};
ghost use Rattle.office_history.specs.Answer.{IsLegal, standing_of};
ghost use Rattle.office_history.specs.Past.{same_key};
ghost use Rattle.audit.specs.Lists.{IsTaken};

use crate::finding::{BROKEN_RULE, USED_KEY};
use aid_filings::{Filing, StandingRow};
use aid_types::{Key, Student, Year};
use office_answers::{rule_on, standing_on};
use office_index::Office;
use office_plain::PlainHistory;
use std::alloc::{AllocError, Global};

/// Legal filings as an audit keeps them.
pub trait AuditedList: Drop {
    /// The filings, the newest first.
    ghost filings: { Self → List AnyFiling };
    /// How many it takes.
    ghost most: { ℕ };
    /// How many bytes an export of so many may have.
    ghost limit: { ℕ };

    /// Without a filing.
    fn new(alloc: Global) -> Self
        ensures { filings result ≡ [] };

    /// The most filings that it takes.
    fn most() -> usize
        ensures value { result ≡ most }
        ensures few { result ≤ 1000000 };

    /// The most bytes of an export that is audited so.
    fn limit() -> usize
        ensures value { result ≡ limit }
        ensures few { result ≤ 1073741824 };

    /// The filings, the oldest first.
    fn filings(&self) -> &[Filing]
        ensures { reverse result.now ≡ filings self.now };

    /// Takes a filing behind the others where it is legal; else it says the cause why it is bad. An `Err` is want of memory.
    fn take(&mut self, filing: Filing) -> Result<Option<u8>, AllocError>
        requires legal { IsLegal (filings self.old) }
        requires room { length (filings self.old) < most }
        ensures { IfOk result (λ cause. IsTaken (filings self.old) filing (filings self.new) cause) };

    /// Where a student stands in a year on all of them.
    fn standing(&self, student: Student, year: Year) -> StandingRow
        requires { IsLegal (filings self.now) }
        ensures { result ≡ standing_of (filings self.now) student year };
}

/// A plain list, of at most 20,000 filings.
#[derive(Drop)]
pub struct PlainList {
    filings: Vec<Filing>,
}

impl AuditedList for PlainList {
    ghost filings = { λ list. reverse list.filings.items };

    ghost most = { 20000 };

    ghost limit = { 16777216 };

    fn new(alloc: Global) -> Self {
        PlainList {
            filings: Vec::new(alloc),
        }
    }

    fn most() -> usize {
        20_000
    }

    fn limit() -> usize {
        16_777_216
    }

    fn filings(&self) -> &[Filing] {
        &self.filings
    }

    fn take(&mut self, filing: Filing) -> Result<Option<u8>, AllocError> {
        if rule_on(&PlainHistory::new(&self.filings), &filing).is_some() {
            self.filings.push(filing)?;
            return Ok(None);
        }
        Ok(why_bad(is_used(&self.filings, &filing.key)))
    }

    fn standing(&self, student: Student, year: Year) -> StandingRow {
        standing_on(&PlainHistory::new(&self.filings), student, year)
    }
}

// Whether a filing has this key.
fn is_used(filings: &[Filing], key: &Key) -> bool
    ensures { result ≡ list_any (λ filing. same_key key.now filing.key) filings.now }
{
    filings.iter().any(|filing| *key == filing.key)
}

// The cause why a filing is bad, by whether its key was used before.
fn why_bad(is_used: bool) -> Option<u8>
    ensures { result ≡ Some (if is_used then 3 else 4) }
{
    if is_used {
        Some(USED_KEY)
    } else {
        Some(BROKEN_RULE)
    }
}

/// An office, of at most 1,000,000 filings.
impl AuditedList for Office {
    ghost filings = { λ office. office.history };

    ghost most = { 1000000 };

    ghost limit = { 1073741824 };

    fn new(alloc: Global) -> Self {
        Office::new(alloc)
    }

    fn most() -> usize {
        1_000_000
    }

    fn limit() -> usize {
        1_073_741_824
    }

    fn filings(&self) -> &[Filing] {
        Office::filings(self)
    }

    fn take(&mut self, filing: Filing) -> Result<Option<u8>, AllocError> {
        if let Some(outcome) = self.rule(&filing) {
            self.reserve(1)?;
            self.admit_with(filing, outcome);
            return Ok(None);
        }
        Ok(why_bad(self.position(&filing.key) > 0))
    }

    fn standing(&self, student: Student, year: Year) -> StandingRow {
        Office::standing(self, student, year)
    }
}
