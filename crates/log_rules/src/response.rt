// What a list of filings makes of a filing.
use aid_types::Refusal;

/// How a filing is judged.
#[derive(Clone, Copy, PartialEq, Eq, Drop)]
pub enum RuleResponse<O> {
    /// It stands at this position, and was admitted with this outcome.
    Again { position: u32, outcome: O },
    /// It breaks this rule.
    Refused(Refusal),
    /// It may follow those that stand.
    Admit(O),
}
