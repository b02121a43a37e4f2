//! The search for the end of a head block, which looks at no byte twice.
ghost use Rattle.std.specs.Prelude.{◌≡◌, ◌≤◌, [], ℕ, List, length, IfSome, IfNone};
ghost use Rattle.web_session.specs.Ends.{head_end, IsScanned};

use crate::head_state::HeadState;

/// How far the bytes held were looked at: no head block ends in the first `count` of them.
#[derive(Clone, Copy, PartialEq, Eq)]
pub struct Scan {
    state: HeadState,
    count: usize,
}

impl Scan {
    /// No byte was looked at.
    pub fn new() -> Scan
        ensures { (bytes : List ℕ) → IsScanned result.state result.count bytes }
    {
        Scan {
            state: HeadState::Before,
            count: 0,
        }
    }

    /// Looks at the bytes that weren't looked at yet, and answers where the first head block ends.
    pub fn advance(&mut self, bytes: &[u8]) -> Option<usize>
        requires { IsScanned self.old.state self.old.count bytes.now }
        ensures end { result ≡ head_end bytes.now }
        ensures within { IfSome result (λ k. k ≤ length bytes.now) }
        ensures scanned { IfNone result (IsScanned self.new.state self.new.count bytes.now) }
        ensures all { IfNone result (self.new.count ≡ length bytes.now) }
    {
        let mut rest = &bytes[self.count..];
        while let [byte, after @ ..] = rest {
            self.count += 1;
            if self.state.ends(*byte) {
                return Some(self.count);
            }
            self.state = self.state.next(*byte);
            rest = after;
        }
        None
    }
}
