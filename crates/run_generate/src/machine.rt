// An office that takes the asks of a generated year.
ghost use Rattle.std.specs.Prelude.{◌≡◌, ◌<◌, IfSome};
ghost use Rattle.log_machine.specs.NewEntry.{entry_of};
ghost use Rattle.run_generate.specs.Payments.{paid, paid_adds, payment as payment_of, quoted, year_added, year_answer};

use crate::{QuotePayment, YearOperation, YearResponse};
use aid_filings::{Amount, Filing, Operation, Response, What};
use aid_types::Program;
use io_traits::PayloadBuffer;
use log_journal::Header;
use log_machine::{Decided, DecodeError, StateMachine};
use log_stamps::Stampable;
use std::alloc::{AllocError, Global};

/// The docket of an office, which takes the asks of a generated year in place of its own.
#[derive(Drop)]
pub struct GeneratingMachine<R> {
    pub office: R,
}

// The greatest amount of a filing, in cents.
const MOST_CENTS: u64 = 99_999_999;

// The filing that pays a quote.
fn payment(pay: &QuotePayment, quote: u64) -> Filing
    ensures { result ≡ payment_of pay.now quote }
{
    Filing {
        key: pay.key,
        what: What::Pay(Amount {
            student: pay.student,
            year: pay.year,
            term: pay.term,
            program: Program::Pell,
            cents: quote.min(MOST_CENTS),
        }),
    }
}

// The cents of a verdict on an ask for a quote.
fn cents_of(response: &Response) -> u64
    ensures { result ≡ quoted response.now }
{
    match response {
        Response::Quoted(cents) => *cents,
        _ => 0,
    }
}

// How the payment of so much is judged, and what it adds.
#[tactic(auto, using(crate::proofs::Paid::paid_at, crate::proofs::Paid::adds_at))]
fn pay_cents<R: StateMachine<Entry = Filing, Operation = Operation, Response = Response>>(
    office: &R,
    pay: &QuotePayment,
    quote: u64,
) -> Decided<Filing, R::Ruling, YearResponse>
    ensures response { result.response ≡ paid R.semantics (R.history office.now) pay.now quote }
    ensures added { entry_of result.added ≡ paid_adds R.semantics (R.history office.now) pay.now quote }
    ensures ruled { IfSome result.added (λ a. R.IsRuling (R.history office.now) a.entry a.ruling) }
{
    if quote == 0 {
        return Decided {
            response: YearResponse::NothingToPay,
            added: None,
        };
    }
    let judged = office.judge(Operation::File(payment(pay, quote)));
    Decided {
        response: YearResponse::Paid {
            cents: quote.min(MOST_CENTS),
            response: judged.response,
        },
        added: judged.added,
    }
}

// How the payment of a quote is judged, and what it adds.
fn pay<R: StateMachine<Entry = Filing, Operation = Operation, Response = Response>>(
    office: &R,
    pay: &QuotePayment,
) -> Decided<Filing, R::Ruling, YearResponse>
    ensures response { result.response ≡ year_answer R.semantics (R.history office.now) (YearOperation.PayQuote pay.now) }
    ensures added { entry_of result.added ≡ year_added R.semantics (R.history office.now) (YearOperation.PayQuote pay.now) }
    ensures ruled { IfSome result.added (λ a. R.IsRuling (R.history office.now) a.entry a.ruling) }
{
    let quoted = office.judge(Operation::Quote {
        school: pay.key.school,
        student: pay.student,
        year: pay.year,
        term: pay.term,
    });
    pay_cents(office, pay, cents_of(&quoted.response))
}

impl<R: StateMachine<Entry = Filing, Operation = Operation, Response = Response>> StateMachine
    for GeneratingMachine<R> {
    ghost use Rattle.run_generate.specs.Payments.{year_added, year_semantics};
    ghost use Rattle.run_generate.specs.Laws.{year_added_admitted};

    type Entry = Filing;

    type Ruling = R::Ruling;

    type Operation = YearOperation;

    type Response = YearResponse;

    ghost scheme = { R.scheme };

    ghost semantics = { year_semantics R.semantics };

    ghost IsRuling = { R.IsRuling };

    ghost history = { λ machine. R.history machine.office };

    ghost spare = { λ machine. R.spare machine.office };

    ghost keepable = { R.keepable };

    ghost alone = { R.alone };

    ghost none_legal = { R.none_legal };

    ghost admitted_legal = { R.admitted_legal };

    ghost legal_admitted = { R.legal_admitted };

    ghost legal_past = { R.legal_past };

    ghost added_admitted = { year_added_admitted R.scheme R.semantics R.added_admitted };

    fn header() -> Header {
        R::header()
    }

    fn new(alloc: Global) -> Self {
        GeneratingMachine {
            office: R::new(alloc),
        }
    }

    fn front(&self) -> u32 {
        self.office.front()
    }

    fn reserve(&mut self, n: u32) -> Result<(), AllocError> {
        self.office.reserve(n)
    }

    fn judge(&self, operation: YearOperation) -> Decided<Filing, R::Ruling, YearResponse> {
        match operation {
            YearOperation::File(filing) => {
                let judged = self.office.judge(Operation::File(filing));
                Decided {
                    response: YearResponse::Filed(judged.response),
                    added: judged.added,
                }
            }
            YearOperation::PayQuote(payment) => pay(&self.office, &payment),
        }
    }

    fn rule(&self, filing: &Filing) -> Option<R::Ruling> {
        self.office.rule(filing)
    }

    fn admit(&mut self, filing: Filing, ruling: R::Ruling) {
        self.office.admit(filing, ruling);
    }

    fn encode(filing: &Filing, room: &mut PayloadBuffer) {
        R::encode(filing, room);
    }

    fn encode_expected(operation: &YearOperation, room: &mut PayloadBuffer) {
        match operation {
            YearOperation::File(filing) => R::encode(filing, room),
            // What it pays is known once it is judged.
            YearOperation::PayQuote(_) => room.clear(),
        }
    }

    fn decode(alloc: Global, bytes: &[u8]) -> Result<Filing, DecodeError> {
        R::decode(alloc, bytes)
    }
}

impl<
    R: Stampable + StateMachine<Entry = Filing, Operation = Operation, Response = Response>,
> Stampable for GeneratingMachine<R> {
    ghost stamped = { R.stamped };

    fn stamped_header() -> Header {
        R::stamped_header()
    }

    ghost short = { R.short };
}
