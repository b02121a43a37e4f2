//! What a line of a worksheet of a withdrawal says.
use aid_types::ByProgram;

/// The words of a line, and its letter.
#[derive(Clone, Copy)]
pub enum Label {
    Disbursed,
    CouldHaveBeen,
    Both,
    TermDays,
    CompletedDays,
    PercentEarned,
    Earned,
    PostWithdrawal,
    Unearned,
    Charges,
    PercentUnearned,
    UnearnedCharges,
    SchoolReturns,
    LaidOnStudent,
    LoansLeft,
    GrantsAtFirst,
    GrantsKept,
    GrantsReturned,
    HalfOfGrants,
    OwedByProgram,
    RepaidSince,
    StillOwed,
    PaidSince,
    NetNow,
    SentSince,
    StillToSend,
}

/// What a line tells: amounts by program, in cents; an amount in cents; days; or tenths of a percent.
#[derive(Clone, Copy)]
pub enum Figure {
    ByProgram(ByProgram),
    Cents(u64),
    Days(u32),
    Percent(u16),
}

/// A line of a worksheet.
#[derive(Clone, Copy)]
pub struct Entry {
    pub label: Label,
    pub figure: Figure,
}
