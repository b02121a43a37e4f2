//! What takes bytes.
ghost use Rattle.std.specs.Prelude.{◌≡◌, ◌<◌, ◌≤◌, ◌++◌, ℕ, List, Bool, IsTrue, IfOk, OnOk, OnErr, length, take};
ghost use Rattle.io_traits.specs.Faults.{Rose};

use crate::Failed;

/// What takes bytes.
pub trait Sink {
    /// Whether the sink tells its text. Of one that doesn't, nothing is known but its count of faults.
    ghost honest: { Self → Bool };

    /// The bytes that were written.
    ghost text: { Self → List ℕ };

    /// How often a call has failed. At the end of its type the count stands still.
    ghost faults: { Self → ℕ };

    /// Takes a front of the bytes and answers how many bytes that is: at least one, where there are any.
    fn write(&mut self, bytes: &[u8]) -> Result<usize, Failed>
        ensures honest { honest self.new ≡ honest self.old }
        ensures fits { IfOk result (λ n. n ≤ length bytes.now) }
        ensures moves { 0 < length bytes.now → IfOk result (λ n. 0 < n) }
        ensures appended { IsTrue (honest self.old)
            → IfOk result (λ n. text self.new ≡ text self.old ++ take n bytes.now) }
        ensures failed { IsTrue (honest self.old) → OnErr result (text self.new ≡ text self.old) }
        ensures later { faults self.old ≤ faults self.new }
        ensures cause { OnErr result (Rose (faults self.old) (faults self.new)) }
        ensures unmoved { OnOk result (faults self.new ≡ faults self.old) };
}
