//! The words of a worksheet's lines.
ghost use Rattle.std.specs.Prelude.{◌≡◌};
ghost use Rattle.sheet_need.specs.NeedWords.{mark_text, words_before as before_of, words_behind as behind_of};

use crate::entry::{Label, Mark};

/// What stands before the words of a line.
pub(crate) fn mark_word(mark: Mark) -> &'static str
    ensures { result.now ≡ mark_text mark }
{
    match mark {
        Mark::Blank => "   ",
        Mark::Equals => " = ",
        Mark::Plus => " + ",
        Mark::Minus => " - ",
    }
}

/// The words of a line before what stands within them.
pub(crate) fn words_before(label: Label) -> &'static str
    ensures { result.now ≡ before_of label }
{
    match label {
        Label::Agi => "adjusted gross income",
        Label::Ira => "deductions for retirement savings",
        Label::Interest => "tax-exempt interest",
        Label::IraUntaxed => "untaxed distributions of retirement savings",
        Label::Pension => "untaxed pensions",
        Label::Foreign => "foreign income that isn't taxed",
        Label::Grants => "taxable grants and scholarships",
        Label::Credits => "education credits",
        Label::WorkStudy => "earnings of work-study",
        Label::TotalIncome => "total income",
        Label::Tax => "income tax, where above 0",
        Label::Payroll => "payroll tax allowance",
        Label::Protection => "income protection",
        Label::FamilyProtection => "income protection, family of ",
        Label::Employment => "employment expense allowance",
        Label::Shortfall => "parents' adjusted income below 0",
        Label::Allowances => "allowances",
        Label::Available => "available income",
        Label::FromIncome => "contribution from income, ",
        Label::LeastFromIncome => "least contribution from income",
        Label::Support => "child support received",
        Label::Cash => "cash, savings and checking",
        Label::Investments => "net worth of investments",
        Label::Business => "net worth of a business",
        Label::AdjustedBusiness => "adjusted net worth of a business",
        Label::NetWorth => "net worth",
        Label::AssetProtection => "asset protection allowance, age ",
        Label::Discretionary => "discretionary net worth",
        Label::FromAssets => "contribution from assets, ",
        Label::NoneFromAssets => "contribution from assets, none below 0",
        Label::Adjusted => "adjusted available income",
        Label::BySchedule => "contribution, by the schedule",
        Label::Contributions => "sum of the contributions",
        Label::Index => "Student Aid Index, -1500 to 999999",
        Label::Ceiling => "ceiling: no award from this index on",
        Label::ParentsMustFile => "parents required to file a tax return",
        Label::StudentMustFile => "student required to file a tax return",
        Label::Barred => "graduate student, or has a bachelor's degree",
        Label::ParentsAgi => "parents' adjusted gross income",
        Label::StudentAgi => "student's adjusted gross income",
        Label::ParentsAgiAndForeign => "parents' adjusted gross and foreign income",
        Label::StudentAgiAndForeign => "student's adjusted gross and foreign income",
        Label::Guideline => "poverty guideline, family of ",
        Label::MaximumUpTo => "maximum award up to ",
        Label::MinimumUpTo => "minimum award up to ",
        Label::Calculated => "",
        Label::CalculatedAtZero => "",
        Label::MinimumAward => "minimum award of the year",
        Label::Scheduled => "Scheduled Award: ",
        Label::FinalIndex => "final Student Aid Index",
    }
}

/// The words of a line behind what stands within them.
pub(crate) fn words_behind(label: Label) -> &'static str
    ensures { result.now ≡ behind_of label }
{
    match label {
        Label::FromIncome => " percent",
        Label::FromAssets => " percent",
        Label::MaximumUpTo => " percent",
        Label::MinimumUpTo => " percent",
        Label::Calculated => " less the index, to the nearest 5",
        Label::CalculatedAtZero => " less 0 for the index, to the nearest 5",
        _ => "",
    }
}
