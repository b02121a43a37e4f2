//! The lines of a worksheet, part by part.
ghost use Rattle.std.specs.Prelude.{◌≡◌, ◌≤◌, Some};
ghost use Rattle.aid_types.specs.Ranges.{EachIsCents};
ghost use Rattle.law_terms.specs.Terms.{IsLawful};
ghost use Rattle.office_history.specs.Net.{returned as returned_of, sent};
ghost use Rattle.sheet_r2t4.specs.ReturnEntries.{
  at_cells,
  both_of as both_of_program,
  charges_entries,
  days_entries,
  disbursed_entries,
  earned_entries,
  entry as entry_of,
  grants_kept as grants_kept_of,
  half_of as half_of_program,
  halves as halves_of,
  left_of as left_of_program,
  loans_left as loans_left_of,
  returned_entries,
  sent_lines,
  since_entries,
};

use crate::entry::{Entry, Figure, Label};
use aid_filings::WithdrawFacts;
use aid_types::{ByProgram, Day, Key, Program, Term, nearest_whole};
use law_r2t4::Lines;
use law_terms::days;
use office_index::Office;

// A line.
fn entry(label: Label, figure: Figure) -> Entry
    ensures { result ≡ entry_of label figure }
{
    Entry { label, figure }
}

/// What was disbursed, what else could have been, and both.
pub(crate) fn disbursed(net: &ByProgram, could: &ByProgram) -> [Entry; 3]
    requires net { EachIsCents net.now }
    requires could { EachIsCents could.now }
    ensures { result ≡ disbursed_entries net.now could.now }
{
    [
        entry(Label::Disbursed, Figure::ByProgram(*net)),
        entry(Label::CouldHaveBeen, Figure::ByProgram(*could)),
        entry(Label::Both, Figure::ByProgram(net.plus(could))),
    ]
}

/// All days of a term, and those up to the last day of attendance.
pub(crate) fn days_of_term(term: &Term, last: Day) -> [Entry; 2]
    requires lawful { IsLawful term.now }
    requires begun { term.now.first ≤ last }
    requires inside { last ≤ term.now.last }
    ensures { result ≡ days_entries (Some term.now) last }
{
    [
        entry(Label::TermDays, Figure::Days(days(term, term.last))),
        entry(Label::CompletedDays, Figure::Days(days(term, last))),
    ]
}

/// What was earned, what of that is still to be disbursed, and what wasn't earned.
pub(crate) fn earned(lines: &Lines) -> [Entry; 4]
    ensures { result ≡ earned_entries lines.now }
{
    [
        entry(Label::PercentEarned, Figure::Percent(lines.percent)),
        entry(Label::Earned, Figure::Cents(lines.earned)),
        entry(Label::PostWithdrawal, Figure::Cents(lines.post)),
        entry(Label::Unearned, Figure::Cents(lines.unearned)),
    ]
}

/// The part of the institutional charges that wasn't earned.
pub(crate) fn charges(charges: u64, percent: u16) -> [Entry; 3]
    requires { charges ≤ 99999999 }
    ensures { result ≡ charges_entries charges percent }
{
    let unearned = 1000_u16.saturating_sub(percent);
    let part = nearest_whole(charges * u64::from(unearned), 1000);
    [
        entry(Label::Charges, Figure::Cents(charges)),
        entry(Label::PercentUnearned, Figure::Percent(unearned)),
        entry(Label::UnearnedCharges, Figure::Cents(part)),
    ]
}

/// What the school returns, what is laid on the student, what the student repays and returns of it by the Department's worksheet, and
/// what is owed of each grant by itself.
pub(crate) fn returned(net: &ByProgram, could: &ByProgram, lines: &Lines) -> [Entry; 8]
    requires net { EachIsCents net.now }
    requires could { EachIsCents could.now }
    ensures { result ≡ returned_entries net.now could.now lines.now }
{
    let loans = loans_left(net, &lines.returned);
    let grants = lines.student.saturating_sub(loans);
    let kept = grants_kept(net, could);
    [
        entry(Label::SchoolReturns, Figure::ByProgram(lines.returned)),
        entry(Label::LaidOnStudent, Figure::ByProgram(lines.laid)),
        entry(Label::LoansLeft, Figure::Cents(loans)),
        entry(Label::GrantsAtFirst, Figure::Cents(grants)),
        entry(Label::GrantsKept, Figure::Cents(kept)),
        entry(
            Label::GrantsReturned,
            Figure::Cents(grants.saturating_sub(kept)),
        ),
        entry(Label::HalfOfGrants, Figure::ByProgram(halves(net, could))),
        entry(Label::OwedByProgram, Figure::ByProgram(lines.owed)),
    ]
}

// What the school leaves of all loans.
fn loans_left(net: &ByProgram, returned: &ByProgram) -> u64
    requires { EachIsCents net.now }
    ensures { result ≡ loans_left_of net.now returned.now }
{
    left_of(net, returned, Program::Unsub)
        + left_of(net, returned, Program::Sub)
        + left_of(net, returned, Program::Plus)
}

// What it leaves of one.
#[tactic(auto, using(aid_types::proofs::ProgramLemmas::cents_at))]
fn left_of(net: &ByProgram, returned: &ByProgram, program: Program) -> u64
    requires { EachIsCents net.now }
    ensures value { result ≡ left_of_program net.now returned.now program }
    ensures at_most { result ≤ 99999999 }
{
    net.at(program).saturating_sub(returned.at(program))
}

// Half of all grants that were or could have been disbursed, as one sum.
fn grants_kept(net: &ByProgram, could: &ByProgram) -> u64
    requires net { EachIsCents net.now }
    requires could { EachIsCents could.now }
    ensures { result ≡ grants_kept_of net.now could.now }
{
    let pell = both_of(net, could, Program::Pell);
    let fseog = both_of(net, could, Program::Fseog);
    let teach = both_of(net, could, Program::Teach);
    nearest_whole(pell + fseog + teach, 2)
}

// All of a program that was or could have been disbursed.
#[tactic(auto, using(aid_types::proofs::ProgramLemmas::cents_at))]
fn both_of(net: &ByProgram, could: &ByProgram, program: Program) -> u64
    requires net { EachIsCents net.now }
    requires could { EachIsCents could.now }
    ensures value { result ≡ both_of_program net.now could.now program }
    ensures at_most { result ≤ 199999998 }
{
    net.at(program) + could.at(program)
}

// Half of all of each grant that was or could have been disbursed.
fn halves(net: &ByProgram, could: &ByProgram) -> ByProgram
    requires net { EachIsCents net.now }
    requires could { EachIsCents could.now }
    ensures { result ≡ halves_of net.now could.now }
{
    ByProgram::new([
        0,
        0,
        0,
        half_of(net, could, Program::Pell),
        half_of(net, could, Program::Fseog),
        half_of(net, could, Program::Teach),
    ])
}

// The same of one.
fn half_of(net: &ByProgram, could: &ByProgram, program: Program) -> u64
    requires net { EachIsCents net.now }
    requires could { EachIsCents could.now }
    ensures { result ≡ half_of_program net.now could.now program }
{
    nearest_whole(both_of(net, could, program), 2)
}

/// What came of a withdrawal since: what was repaid, what is still owed, what was paid, and the nets now.
pub(crate) fn since(office: &Office, key: &Key, withdrawal: &WithdrawFacts) -> [Entry; 4]
    ensures { result ≡ since_entries office.now.history key.now withdrawal.now }
{
    let WithdrawFacts {
        student,
        year,
        term,
        ..
    } = *withdrawal;
    let account = office.place(key.school, student, year, term).account;
    let still_owed = account.owed.minus(&account.repaid);
    let net = account.paid.minus(&account.taken);
    [
        entry(Label::RepaidSince, Figure::ByProgram(account.repaid)),
        entry(Label::StillOwed, Figure::ByProgram(still_owed)),
        entry(Label::PaidSince, Figure::ByProgram(account.after)),
        entry(Label::NetNow, Figure::ByProgram(net)),
    ]
}

/// What the school sent back of its part of a withdrawal, and that part, by program.
pub(crate) fn sent_back(
    office: &Office,
    key: &Key,
    withdrawal: &WithdrawFacts,
) -> (ByProgram, ByProgram)
    ensures gone { result.0 ≡ at_cells (sent office.now.history) key.now withdrawal.now }
    ensures part { result.1 ≡ at_cells (returned_of office.now.history) key.now withdrawal.now }
{
    let WithdrawFacts {
        student,
        year,
        term,
        ..
    } = *withdrawal;
    let account = office.place(key.school, student, year, term).account;
    (account.sent, account.returned)
}

/// What was sent back of a part, and what of it is still to be sent.
pub(crate) fn sent_since(gone: &ByProgram, part: &ByProgram) -> [Entry; 2]
    ensures { result ≡ sent_lines gone.now part.now }
{
    [
        entry(Label::SentSince, Figure::ByProgram(*gone)),
        entry(Label::StillToSend, Figure::ByProgram(part.minus(gone))),
    ]
}
