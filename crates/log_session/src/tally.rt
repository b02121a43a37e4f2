// What verdicts come to.
ghost use Rattle.std.specs.Prelude.{◌≡◌, ◌+◌, ◌≤◌, ◌++◌, ℕ, List, OnOk};

use log_machine::StateMachine;
use std::alloc::AllocError;

/// A count of verdicts, and the text that tells what they came to.
pub trait Tally<R: StateMachine>: Drop {
    /// The tally with a verdict more.
    ghost counted: { Self → R.Response → Self };

    /// The text that tells of the verdicts.
    ghost ending: { Self → List ℕ };

    /// So many verdicts more may be counted.
    ghost room: { Self → ℕ };

    /// Counts a verdict.
    fn count(&mut self, response: &R::Response)
        requires room { 1 ≤ room self.old }
        ensures counted { self.new ≡ counted self.old response.now }
        ensures room { room self.old ≤ room self.new + 1 };

    /// Appends the text that tells of the verdicts. An `Err` is want of memory.
    fn put_ending(&self, out: &mut Vec<u8>) -> Result<(), AllocError>
        ensures { OnOk result (out.new.items ≡ out.old.items ++ ending self.now) };
}
