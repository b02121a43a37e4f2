//! The words of a worksheet's lines.
ghost use Rattle.std.specs.Prelude.{◌≡◌};
ghost use Rattle.sheet_r2t4.specs.ReturnWords.{letter_text, words_text};

use crate::entry::Label;

/// The letter of a line, and a space.
pub(crate) fn letter(label: Label) -> &'static str
    ensures { result.now ≡ letter_text label }
{
    match label {
        Label::Disbursed => "E ",
        Label::Both => "G ",
        Label::PercentEarned => "H ",
        Label::Earned => "I ",
        Label::PostWithdrawal => "J ",
        Label::Unearned => "K ",
        Label::Charges => "L ",
        Label::PercentUnearned => "M ",
        Label::UnearnedCharges => "N ",
        Label::SchoolReturns => "O ",
        Label::LaidOnStudent => "Q ",
        Label::LoansLeft => "R ",
        Label::GrantsAtFirst => "S ",
        Label::GrantsKept => "T ",
        Label::GrantsReturned => "U ",
        _ => "  ",
    }
}

/// The words of a line.
pub(crate) fn words(label: Label) -> &'static str
    ensures { result.now ≡ words_text label }
{
    match label {
        Label::Disbursed => "disbursed, net",
        Label::CouldHaveBeen => "could have been disbursed",
        Label::Both => "both",
        Label::TermDays => "days of the term",
        Label::CompletedDays => "days completed",
        Label::PercentEarned => "percent earned",
        Label::Earned => "earned",
        Label::PostWithdrawal => "post-withdrawal amount",
        Label::Unearned => "unearned",
        Label::Charges => "institutional charges",
        Label::PercentUnearned => "percent unearned",
        Label::UnearnedCharges => "unearned part of the charges",
        Label::SchoolReturns => "the school returns",
        Label::LaidOnStudent => "laid on the student",
        Label::LoansLeft => "loans the student repays",
        Label::GrantsAtFirst => "grants to return, at first",
        Label::GrantsKept => "half of both, of all grants",
        Label::GrantsReturned => "grants the student returns",
        Label::HalfOfGrants => "half of both, of grants",
        Label::OwedByProgram => "owed, program by program",
        Label::RepaidSince => "repaid since",
        Label::StillOwed => "still owed",
        Label::PaidSince => "paid since",
        Label::NetNow => "net now",
        Label::SentSince => "sent back since",
        Label::StillToSend => "still to send back",
    }
}
