//! The words of an award, and why a filing is refused.

/// Why a filing is refused: the number of the rule, what stands, and what may stand.
#[derive(Clone, Copy, PartialEq, Eq, Debug)]
pub struct Refusal {
    pub rule: u16,
    pub kept: u64,
    pub bound: u64,
}

/// The way to a Scheduled Award (HEA 401(b)).
#[derive(Clone, Copy, PartialEq, Eq, Debug)]
pub enum Way {
    Maximum,
    Calculated,
    Minimum,
    Nothing,
}

/// The formula of need analysis: A for dependent students, B for independent students without dependents, C for those
/// with dependents (HEA 475, 476, 477).
#[derive(Clone, Copy, PartialEq, Eq, Debug)]
pub enum Formula {
    A,
    B,
    C,
}
