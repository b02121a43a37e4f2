//! An input is read whole, and answered with one text.
ghost use Rattle.std.specs.Prelude.{◌≡◌, ◌≢◌, ◌<◌, ◌≤◌, ◌^◌, ℕ, List, Err, IsTrue, IfOk, IfErr, OnOk, length};
ghost use Rattle.io_traits.specs.Faults.{Rose};
ghost use Rattle.log_session.specs.Edges.{IsReadWhole};
ghost use Rattle.log_session.specs.Sessions.{IsUnread};
ghost use Rattle.log_runs.specs.Ends.{Moved};
ghost use Rattle.log_runs.specs.Statuses.{is_read_fault, is_write_fault};
ghost use Rattle.audit.specs.Answers.{AnswersInput};

use clock_hours::clock_lines;
use io_traits::{ReadError, Sink, Source, read_to_limit};
use log_runs::{RunStop, put};
use log_session::{CheckStop, ReadStop};
use std::alloc::{AllocError, Global};

/// What answers a whole input with a text.
pub trait Answering {
    /// The texts that answer an input.
    ghost answers: { Self → List ℕ → List ℕ → Type 0 };
    /// How many bytes an input may have.
    ghost limit: { Self → ℕ };

    /// The most bytes of an input.
    fn limit(&self) -> usize
        ensures value { result ≡ limit self.now }
        ensures few { result < 2 ^ 62 };

    /// A text that answers an input.
    fn answer(&self, alloc: Global, input: Vec<u8>) -> Result<Vec<u8>, AllocError>
        requires { length input.items ≤ limit self.now }
        ensures { IfOk result (λ text. answers self.now input.items text.items) };
}

/// A line for each row about clock-hour programs.
#[derive(Drop)]
pub struct ClockAnswers;

impl Answering for ClockAnswers {
    ghost use Rattle.audit.specs.Answers.{IsClockText};

    ghost answers = { λ it. IsClockText };

    ghost limit = { λ it. 16777216 };

    fn limit(&self) -> usize {
        16_777_216
    }

    fn answer(&self, alloc: Global, input: Vec<u8>) -> Result<Vec<u8>, AllocError> {
        clock_lines(alloc, input)
    }
}

// Reads the whole input, of at most `limit` bytes.
fn read_input<S: Source>(alloc: Global, input: &mut S, limit: usize) -> Result<Vec<u8>, ReadStop>
    requires { limit < 2 ^ 62 }
    ensures short { IfOk result (λ read. length read.items ≤ limit) }
    ensures bytes { IfOk result (λ read. IsTrue (S.honest input.old) → read.items ≡ S.left input.old) }
    ensures whole { OnOk result (IsReadWhole limit (record { honest = S.honest input.old; before = S.left input.old; after = S.left input.new })) }
    ensures unread { IfErr result (λ stop. IsUnread stop limit (record { honest = S.honest input.old; before = S.left input.old; after = S.left input.new })) }
    ensures cause { result ≡ Err ReadStop.Read → Rose (S.faults input.old) (S.faults input.new) }
    ensures unmoved { OnOk result (S.faults input.new ≡ S.faults input.old) }
    ensures unmoved_err { IfErr result (λ stop. stop ≢ ReadStop.Read → S.faults input.new ≡ S.faults input.old) }
    ensures later { S.faults input.old ≤ S.faults input.new }
    ensures honest { S.honest input.new ≡ S.honest input.old }
{
    match read_to_limit(alloc, input, limit) {
        Ok(read) => Ok(read),
        Err(ReadError::Failed) => Err(ReadStop::Read),
        Err(ReadError::TooLong) => Err(ReadStop::TooLong),
        Err(ReadError::NoMemory) => Err(ReadStop::NoMemory),
    }
}

/// Reads the whole input, makes a text that answers it, and writes the text.
pub fn answer_input<S: Source, K: Sink, A: Answering>(
    alloc: Global,
    answering: &A,
    input: &mut S,
    out: &mut K,
) -> Result<(), RunStop>
    ensures answers { AnswersInput (A.limit answering.now) (A.answers answering.now) K.Sink (record { honest = S.honest input.old; before = S.left input.old; after = S.left input.new }) out.old out.new result }
    ensures source { Moved (is_read_fault result) (S.faults input.old, S.faults input.new) }
    ensures sink { Moved (is_write_fault result) (K.faults out.old, K.faults out.new) }
    ensures source_later { S.faults input.old ≤ S.faults input.new }
    ensures sink_later { K.faults out.old ≤ K.faults out.new }
    ensures source_honest { S.honest input.new ≡ S.honest input.old }
    ensures sink_honest { K.honest out.new ≡ K.honest out.old }
{
    let read = match read_input(alloc, input, answering.limit()) {
        Ok(read) => read,
        Err(stop) => return Err(RunStop::Check(CheckStop::Reading(stop))),
    };
    let Ok(text) = answering.answer(alloc, read) else {
        return Err(RunStop::Check(CheckStop::NoMemory));
    };
    match put(out, &text) {
        Ok(()) => Ok(()),
        Err(_) => Err(RunStop::Check(CheckStop::Write)),
    }
}
