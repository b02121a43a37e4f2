// The filings that stand, as a docket.
ghost use Rattle.std.specs.Prelude.{◌≡◌, None, Some, IfSome, if◌then◌else◌};
ghost use Rattle.std.specs.Option.{option_copied};
ghost use Rattle.log_machine.specs.NewEntry.{entry_of};
ghost use Rattle.log_rules.specs.Ruled.{answer_of, filing_in, history_of, is_admit};

use crate::admission::join;
use crate::answer::answer;
use crate::number::FilingNumber;
use crate::{Filed, OfficeRules, RuleResponse};
use io_traits::PayloadBuffer;
use log_journal::Header;
use log_machine::{Decided, DecodeError, NewEntry, StateMachine};
use sorted_rows::Table;
use std::alloc::{AllocError, Global};
use std::marker::Model;

/// The filings of an office that stand, each with the outcome of its admission, and room for more. A contract sees the filings, the
/// newest first, and the spare room. The list is legal.
#[derive(Drop)]
pub struct RuleMachine<R: OfficeRules> {
    // The oldest first.
    filings: Vec<Filed<R::Entry, R::Outcome>>,
    // The position of each key.
    places: Table<FilingNumber, u32>,
    index: R::Index,
    spare: u32,
}

impl<R: OfficeRules> Model for RuleMachine<R> {
    ghost use Rattle.std.specs.Prelude.{◌+◌, ◌≤◌, reverse, vec_len, vec_capacity};
    ghost use Rattle.log_rules.specs.Kept.{IsKept};
    ghost use Rattle.log_rules.specs.Ruled.{Filings, history_of};

    ghost Value = { Filings R.Entry };

    ghost view = { λ l. record { list = history_of l.filings.items; spare = l.spare } };

    ghost invariant = { λ l. IsKept R.ruling (reverse l.filings.items) l.places.rows (R.on_file l.index)
        × (vec_len l.filings + l.spare ≤ vec_capacity l.filings) × (l.spare ≤ l.places.room) × (l.spare ≤ R.room l.index) };
}

// The filing that is added where it has this verdict, with the outcome that the verdict tells.
fn added<E: Drop, O: Copy>(filing: E, response: &RuleResponse<O>) -> Option<NewEntry<E, O>>
    ensures entry { entry_of result ≡ (if is_admit response.now then Some filing else None) }
    ensures filing { IfSome result (λ a. a.entry ≡ filing) }
    ensures outcome { IfSome result (λ a. response.now ≡ RuleResponse.Admit a.ruling) }
{
    match response {
        RuleResponse::Admit(outcome) => Some(NewEntry {
            entry: filing,
            ruling: *outcome,
        }),
        _ => None,
    }
}

// The filing at a position, counted from 1.
fn filing_among<E, O>(filings: &[Filed<E, O>], position: u32) -> Option<&E>
    ensures { option_copied result ≡ filing_in (history_of filings.now) position }
{
    if position == 0 {
        return None;
    }
    match filings.get(position as usize - 1) {
        Some(filed) => Some(&filed.entry),
        None => None,
    }
}

impl<R: OfficeRules> RuleMachine<R> {
    /// The filings, the oldest first, each with the outcome of its admission.
    pub fn filings(&self) -> &[Filed<R::Entry, R::Outcome>]
        ensures { history_of result.now ≡ self.now.list }
    {
        self.filings.as_slice()
    }

    /// The filing at this position, counted from 1 at the oldest; `None` where there is no such position.
    pub fn filing(&self, position: u32) -> Option<&R::Entry>
        ensures { option_copied result ≡ filing_in self.now.list position }
    {
        filing_among(self.filings.as_slice(), position)
    }

    /// What is on file, by name.
    pub fn index(&self) -> &R::Index
        ensures { R.on_file result.now ≡ self.now.list }
    {
        &self.index
    }

    // The answer to a filing.
    fn answer(&self, filing: &R::Entry) -> RuleResponse<R::Outcome>
        ensures { result ≡ answer_of R.ruling self.now.list filing.now }
    {
        answer::<R>(self.filings.as_slice(), &self.places, &self.index, filing)
    }
}

impl<R: OfficeRules> StateMachine for RuleMachine<R> {
    ghost use Rattle.log_rules.specs.declared.response.RuleResponse.TheVariants.{Admit};
    ghost use Rattle.log_rules.specs.Ruled.{semantics_of, scheme_of};
    ghost use Rattle.log_rules.specs.RowLaws.{keepable as is_keepable, alone as is_alone};
    ghost use Rattle.log_rules.specs.RuledLaws.{admitted_legal as is_legal_with, legal_admitted as is_admitted, legal_past as was_legal, added_admitted as is_added_admitted};

    type Entry = R::Entry;

    // The outcome of its admission.
    type Ruling = R::Outcome;

    type Operation = R::Entry;

    type Response = RuleResponse<R::Outcome>;

    ghost scheme = { scheme_of R.ruling };

    ghost semantics = { semantics_of R.ruling };

    ghost IsRuling = { λ past filing outcome. answer_of R.ruling past filing ≡ Admit outcome };

    ghost history = { λ list. list.list };

    ghost spare = { λ list. list.spare };

    ghost keepable = { is_keepable R.ruling R.key R.kinds R.code_of R.numbers_of R.rows R.sound };

    ghost alone = { is_alone R.ruling R.key R.kinds R.code_of R.numbers_of R.rows R.sound R.one };

    ghost none_legal = { tt };

    ghost admitted_legal = { is_legal_with R.ruling };

    ghost legal_admitted = { is_admitted R.ruling };

    ghost legal_past = { was_legal R.ruling };

    ghost added_admitted = { is_added_admitted R.ruling };

    fn header() -> Header {
        Header {
            name: *b"AIDPELL1",
            version: 2,
            old: Some(1),
        }
    }

    fn new(alloc: Global) -> Self {
        RuleMachine {
            filings: Vec::new(alloc),
            places: Table::new(alloc),
            index: R::new_index(alloc),
            spare: 0,
        }
    }

    fn front(&self) -> u32 {
        self.filings.len() as u32
    }

    fn reserve(&mut self, n: u32) -> Result<(), AllocError> {
        if n <= self.spare {
            return Ok(());
        }
        self.filings.reserve(n as usize)?;
        self.places.reserve(n)?;
        R::reserve(&mut self.index, n)?;
        self.spare = n;
        Ok(())
    }

    fn judge(
        &self,
        operation: R::Entry,
    ) -> Decided<R::Entry, R::Outcome, RuleResponse<R::Outcome>> {
        let response = self.answer(&operation);
        let added = added(operation, &response);
        Decided { response, added }
    }

    fn rule(&self, filing: &R::Entry) -> Option<R::Outcome> {
        match self.answer(filing) {
            RuleResponse::Admit(outcome) => Some(outcome),
            _ => None,
        }
    }

    fn admit(&mut self, filing: R::Entry, outcome: R::Outcome) {
        join::<R>(
            &mut self.filings,
            &mut self.places,
            &mut self.index,
            filing,
            outcome,
        );
        self.spare -= 1;
    }

    fn encode(filing: &R::Entry, room: &mut PayloadBuffer) {
        format_table::put::<R>(filing, room);
    }

    fn encode_expected(operation: &R::Entry, room: &mut PayloadBuffer) {
        format_table::put::<R>(operation, room);
    }

    fn decode(_alloc: Global, bytes: &[u8]) -> Result<R::Entry, DecodeError> {
        match format_table::take::<R>(bytes) {
            Ok(filing) => Ok(filing),
            Err(_) => Err(DecodeError::NotEntry),
        }
    }
}
