// The office as the docket of a kept list, its filings without stamps and with them.
ghost use Rattle.std.specs.Prelude.{◌≡◌, ◌<◌, reverse, None, IfSome, if◌then◌else◌};
ghost use Rattle.aid_filings.specs.declared.reply.Operation.TheVariants.{File as FileAsked};
ghost use Rattle.aid_filings.specs.declared.reply.Response.TheVariants.{Admit};
ghost use Rattle.log_machine.specs.NewEntry.{entry_of};
ghost use Rattle.office_history.specs.Answer.{answer_to, is_admit};
ghost use Rattle.office_log.specs.Submits.{filing_asked};

use aid_filings::{Filing, Operation, Outcome, Response};
use format_bytes::TakeError;
use io_traits::PayloadBuffer;
use log_journal::Header;
use log_machine::{Decided, DecodeError, NewEntry, StateMachine};
use log_stamps::{Stampable, StampedEntry, StampedMachine, StampedOperation};
use office_index::Office;
use sorted_rows::Steps;
use std::alloc::{AllocError, Global};
use std::marker::Brand;
use std::sync::ledger::{Blank, Ledger};

/// An office whose filings a list keeps: it judges them, and spells them. By itself it reads the journals of version 1, whose
/// filings have no stamps.
#[derive(Drop)]
pub struct OfficeMachine {
    pub(crate) office: Office,
}

/// An office whose filings carry stamps: the docket of today's journals.
pub type StampedOfficeMachine = StampedMachine<OfficeMachine>;

/// A filing with its stamp.
pub type StampedFiling = StampedEntry<Filing>;

/// What is asked, with the stamp of what it may file.
pub type Stamped = StampedOperation<Operation>;

impl OfficeMachine {
    /// The office, with the filings that stand.
    pub fn office(&self) -> &Office
        ensures { result.now.history ≡ ⟦<OfficeMachine as StateMachine>⟧.history self.now }
    {
        &self.office
    }

    /// The filings alone, the oldest first. It takes no memory.
    pub fn into_filings(self, alloc: Global) -> Vec<Filing>
        ensures { reverse result.items ≡ ⟦<OfficeMachine as StateMachine>⟧.history self }
    {
        let OfficeMachine { office } = self;
        office.into_filings(alloc)
    }
}

// The verdict of an office, with the steps counted on a blank.
fn verdict_on<L: Ledger>(office: &Office, operation: &Operation, blank: Blank) -> Response
    requires name { blank.name ≡ L.name }
    requires parts { blank.parts ≡ L.parts }
    requires some { 0 < blank.parts }
    ensures { result ≡ answer_to office.now.history operation.now }
{
    let mut steps = Steps::<L>::new(blank);
    office.respond(operation, &mut steps)
}

// The verdict of an office on an ask.
fn response(office: &Office, operation: &Operation) -> Response
    ensures { result ≡ answer_to office.now.history operation.now }
{
    verdict_on::<Brand>(office, operation, Blank::new(1))
}

// The filing that an ask adds where it has this verdict, with the outcome that the verdict tells.
fn added(operation: Operation, response: &Response) -> Option<NewEntry<Filing, Outcome>>
    ensures entry { entry_of result ≡ (if is_admit response.now then filing_asked operation else None) }
    ensures operation { IfSome result (λ a. operation ≡ FileAsked a.entry) }
    ensures outcome { IfSome result (λ a. response.now ≡ Admit a.ruling) }
{
    match (operation, response) {
        (Operation::File(filing), Response::Admit(outcome)) => Some(NewEntry {
            entry: filing,
            ruling: *outcome,
        }),
        _ => None,
    }
}

impl StateMachine for OfficeMachine {
    ghost use Rattle.aid_filings.specs.declared.reply.Response.TheVariants.{Admit};
    ghost use Rattle.office_history.specs.Answer.{answer_of};
    ghost use Rattle.office_log.specs.Scheme.{filing_scheme};
    ghost use Rattle.office_log.specs.Submits.{filing_semantics};
    ghost use Rattle.office_log.specs.OfficeLaws.{keepable, alone, admitted_legal, legal_admitted, legal_past, added_admitted};

    type Entry = Filing;

    // The outcome of its admission.
    type Ruling = Outcome;

    type Operation = Operation;

    type Response = Response;

    ghost scheme = { filing_scheme };

    ghost semantics = { filing_semantics };

    ghost IsRuling = { λ past filing outcome. answer_of past filing ≡ Admit outcome };

    ghost history = { λ machine. machine.office.history };

    ghost spare = { λ machine. machine.office.spare };

    ghost keepable = { keepable };

    ghost alone = { alone };

    ghost none_legal = { tt };

    ghost admitted_legal = { admitted_legal };

    ghost legal_admitted = { legal_admitted };

    ghost legal_past = { legal_past };

    ghost added_admitted = { added_admitted };

    fn header() -> Header {
        Header {
            name: *b"AIDPELL1",
            version: 1,
            old: None,
        }
    }

    fn new(alloc: Global) -> Self {
        OfficeMachine {
            office: Office::new(alloc),
        }
    }

    fn front(&self) -> u32 {
        self.office.front()
    }

    fn reserve(&mut self, n: u32) -> Result<(), AllocError> {
        self.office.reserve(n)
    }

    fn judge(&self, operation: Operation) -> Decided<Filing, Outcome, Response> {
        let response = response(&self.office, &operation);
        let added = added(operation, &response);
        Decided { response, added }
    }

    fn rule(&self, filing: &Filing) -> Option<Outcome> {
        self.office.rule(filing)
    }

    fn admit(&mut self, filing: Filing, outcome: Outcome) {
        self.office.admit_with(filing, outcome);
    }

    fn encode(filing: &Filing, room: &mut PayloadBuffer) {
        format_bytes::put(filing, room);
    }

    fn encode_expected(operation: &Operation, room: &mut PayloadBuffer) {
        match operation {
            Operation::File(filing) => format_bytes::put(filing, room),
            _ => room.clear(),
        }
    }

    fn decode(alloc: Global, bytes: &[u8]) -> Result<Filing, DecodeError> {
        match format_bytes::take(alloc, bytes) {
            Ok(filing) => Ok(filing),
            Err(TakeError::NotFiling(_)) => Err(DecodeError::NotEntry),
            Err(TakeError::NoMemory) => Err(DecodeError::NoMemory),
        }
    }
}

impl Stampable for OfficeMachine {
    ghost use Rattle.office_log.specs.Scheme.{office_header};
    ghost use Rattle.office_log.specs.OfficeLaws.{short as is_short};

    ghost stamped = { office_header };

    fn stamped_header() -> Header {
        Header {
            name: *b"AIDPELL1",
            version: 2,
            old: Some(1),
        }
    }

    ghost short = { is_short };
}
