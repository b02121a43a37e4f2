//! Where a head block ends.
ghost use Rattle.std.specs.Prelude.{◌≡◌, ◌≤◌, length, drop, IfSome};
ghost use Rattle.web_session.specs.Ends.{next_state, ends_at, end_from};

/// Where the next byte lies in a request's head.
#[derive(Clone, Copy, PartialEq, Eq)]
pub enum HeadState {
    /// No byte has come yet that is neither CR nor LF.
    Before,
    /// Within a line.
    Within,
    /// Directly after an LF.
    AfterFeed,
    /// Directly after an LF and one CR.
    AfterReturn,
}

impl HeadState {
    /// The state after a byte.
    pub fn next(self, byte: u8) -> HeadState
        ensures { result ≡ next_state self byte }
    {
        match self {
            HeadState::Before if byte == 13 || byte == 10 => HeadState::Before,
            HeadState::Before => HeadState::Within,
            HeadState::AfterFeed if byte == 13 => HeadState::AfterReturn,
            _ if byte == 10 => HeadState::AfterFeed,
            _ => HeadState::Within,
        }
    }

    /// Whether a head block ends with this byte.
    pub fn ends(self, byte: u8) -> bool
        ensures { result ≡ ends_at self byte }
    {
        match self {
            HeadState::AfterFeed | HeadState::AfterReturn => byte == 10,
            _ => false,
        }
    }
}
