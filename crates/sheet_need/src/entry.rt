//! What a line of a worksheet of need says.
use aid_types::Way;

/// What stands before the words of a line.
#[derive(Clone, Copy)]
pub enum Mark {
    Blank,
    Equals,
    Plus,
    Minus,
}

/// The words of a line.
#[derive(Clone, Copy)]
pub enum Label {
    Agi,
    Ira,
    Interest,
    IraUntaxed,
    Pension,
    Foreign,
    Grants,
    Credits,
    WorkStudy,
    TotalIncome,
    Tax,
    Payroll,
    Protection,
    FamilyProtection,
    Employment,
    Shortfall,
    Allowances,
    Available,
    FromIncome,
    LeastFromIncome,
    Support,
    Cash,
    Investments,
    Business,
    AdjustedBusiness,
    NetWorth,
    AssetProtection,
    Discretionary,
    FromAssets,
    NoneFromAssets,
    Adjusted,
    BySchedule,
    Contributions,
    Index,
    Ceiling,
    ParentsMustFile,
    StudentMustFile,
    Barred,
    ParentsAgi,
    StudentAgi,
    ParentsAgiAndForeign,
    StudentAgiAndForeign,
    Guideline,
    MaximumUpTo,
    MinimumUpTo,
    Calculated,
    CalculatedAtZero,
    MinimumAward,
    Scheduled,
    FinalIndex,
}

/// What stands within the words of a line: a size, an age or a percent; a rate in ten-thousandths, as a percent with two
/// decimals; or the way to an award.
#[derive(Clone, Copy)]
pub enum Part {
    Empty,
    Number(i64),
    Rate(i64),
    WayTaken(Way),
}

/// The figure of a line: a worked number; dollars of the application or the book, the adjusted net worth of a business or
/// the ceiling of the year, which have no line where they are 0; or an answer.
#[derive(Clone, Copy)]
pub enum Figure {
    Worked(i128),
    Dollars(i128),
    Answer(bool),
}

/// A line of a worksheet.
#[derive(Clone, Copy)]
pub struct Entry {
    pub mark: Mark,
    pub label: Label,
    pub part: Part,
    pub figure: Figure,
}
