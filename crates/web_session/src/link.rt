//! A connection.
ghost use Rattle.std.specs.Prelude.{◌≡◌, ◌++◌, ◌<◌, ◌≤◌, ◌↔◌, [], ℕ, length, take, IfOk, OnOk, OnErr};
ghost use Rattle.io_traits.specs.Faults.{Rose};
ghost use Rattle.io_traits.specs.Moved.{IsFrontRead};
ghost use Rattle.web_session.specs.ConnectionState.{ConnectionState, IsHonest, AppendsFront};

use io_traits::Failed;

/// A connection: a source of bytes and a sink of bytes in one, with one count of faults. A read leaves what was written
/// as it is, and a write what is left to read.
pub trait Connection {
    /// What the link tells of itself. Of one that isn't honest, nothing is known but its count of faults.
    ghost tells: { Self → ConnectionState };

    /// How often a call has failed. At the end of its type the count stands still.
    ghost faults: { Self → ℕ };

    /// Fills a front of the buffer and answers how many bytes that is. `Ok(0)` for a buffer that isn't empty is the end
    /// of the input.
    fn read(&mut self, buffer: &mut [u8]) -> Result<usize, Failed>
        ensures honest { (tells self.new).honest ≡ (tells self.old).honest }
        ensures fits { IfOk result (λ n. n ≤ length buffer.old) }
        ensures text { IsHonest (tells self.old) → (tells self.new).text ≡ (tells self.old).text }
        ensures bytes { IsHonest (tells self.old)
            → IfOk result (λ n. IsFrontRead n (tells self.old).left (tells self.new).left buffer.old buffer.new) }
        ensures end { IsHonest (tells self.old) → 0 < length buffer.old
            → IfOk result (λ n. (n ≡ 0) ↔ ((tells self.old).left ≡ [])) }
        ensures failed { IsHonest (tells self.old) → OnErr result ((tells self.new).left ≡ (tells self.old).left) }
        ensures later { faults self.old ≤ faults self.new }
        ensures cause { OnErr result (Rose (faults self.old) (faults self.new)) }
        ensures unmoved { OnOk result (faults self.new ≡ faults self.old) };

    /// Takes a front of the bytes and answers how many bytes that is: at least one, where there are any.
    fn write(&mut self, bytes: &[u8]) -> Result<usize, Failed>
        ensures honest { (tells self.new).honest ≡ (tells self.old).honest }
        ensures fits { IfOk result (λ n. n ≤ length bytes.now) }
        ensures moves { 0 < length bytes.now → IfOk result (λ n. 0 < n) }
        ensures left { IsHonest (tells self.old) → (tells self.new).left ≡ (tells self.old).left }
        ensures appended { IsHonest (tells self.old)
            → IfOk result (λ n. (tells self.new).text ≡ (tells self.old).text ++ take n bytes.now) }
        ensures failed { IsHonest (tells self.old) → OnErr result ((tells self.new).text ≡ (tells self.old).text) }
        ensures later { faults self.old ≤ faults self.new }
        ensures cause { OnErr result (Rose (faults self.old) (faults self.new)) }
        ensures unmoved { OnOk result (faults self.new ≡ faults self.old) };
}

/// Writes all the bytes on a link.
pub fn write_all<L: Connection>(link: &mut L, bytes: &[u8]) -> Result<(), Failed>
    ensures honest { (L.tells link.new).honest ≡ (L.tells link.old).honest }
    ensures left { IsHonest (L.tells link.old) → (L.tells link.new).left ≡ (L.tells link.old).left }
    ensures text { IsHonest (L.tells link.old) → OnOk result ((L.tells link.new).text ≡ (L.tells link.old).text ++ bytes.now) }
    ensures front { IsHonest (L.tells link.old) → OnErr result (AppendsFront (L.tells link.old).text (L.tells link.new).text bytes.now) }
    ensures later { L.faults link.old ≤ L.faults link.new }
    ensures cause { OnErr result (Rose (L.faults link.old) (L.faults link.new)) }
    ensures unmoved { OnOk result (L.faults link.new ≡ L.faults link.old) }
{
    let mut rest = bytes;
    while !rest.is_empty() {
        let n = link.write(rest)?;
        rest = &rest[n..];
    }
    Ok(())
}
