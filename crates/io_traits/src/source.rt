//! What gives bytes.
ghost use Rattle.std.specs.Prelude.{◌≡◌, ◌<◌, ◌≤◌, ◌↔◌, ℕ, List, [], Bool, IsTrue, IfOk, OnOk, OnErr, length};
ghost use Rattle.io_traits.specs.Faults.{Rose};
ghost use Rattle.io_traits.specs.Moved.{IsFrontRead};

use crate::Failed;

/// What gives bytes until its input ends.
pub trait Source {
    /// Whether the source tells what is left. Of one that doesn't, nothing is known but its count of faults.
    ghost honest: { Self → Bool };

    /// The bytes that reads will give from here on.
    ghost left: { Self → List ℕ };

    /// How often a call has failed. At the end of its type the count stands still.
    ghost faults: { Self → ℕ };

    /// Fills a front of the buffer and answers how many bytes that is. `Ok(0)` for a buffer that isn't empty is the end
    /// of the input.
    fn read(&mut self, buffer: &mut [u8]) -> Result<usize, Failed>
        ensures honest { honest self.new ≡ honest self.old }
        ensures fits { IfOk result (λ n. n ≤ length buffer.old) }
        ensures bytes { IsTrue (honest self.old)
            → IfOk result (λ n. IsFrontRead n (left self.old) (left self.new) buffer.old buffer.new) }
        ensures end { IsTrue (honest self.old) → 0 < length buffer.old
            → IfOk result (λ n. (n ≡ 0) ↔ (left self.old ≡ [])) }
        ensures failed { IsTrue (honest self.old) → OnErr result (left self.new ≡ left self.old) }
        ensures later { faults self.old ≤ faults self.new }
        ensures cause { OnErr result (Rose (faults self.old) (faults self.new)) }
        ensures unmoved { OnOk result (faults self.new ≡ faults self.old) };
}
