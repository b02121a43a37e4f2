//! The worksheet of a withdrawal: what a school and a student return of Title IV funds (HEA 484B; 34 CFR 668.22).
#![tactic(auto)]

ghost use Rattle.std.specs.Prelude.{◌≡◌, ℕ, ◌+◌, ◌*◌, ◌≤◌, ◌^◌, sum, slice_index};
ghost use Rattle.aid_types.specs.Ranges.{EachIsCents};
ghost use Rattle.aid_types.specs.Nearest.{half_up};
ghost use Rattle.law_r2t4.specs.Worksheet.{AreInputsInRange, grant_owed, owed_by_program, percent_earned as percent_of, spread as spread_of, worksheet_of};

use aid_types::{ByProgram, Program, nearest_whole};

/// What a worksheet is worked out from: the days of the term that were completed and all its days, without breaks of
/// at least five days; the institutional charges in cents; by program, in the order of returns, the net disbursed in
/// the term and what else could have been, in cents.
#[derive(Clone, Copy, PartialEq, Eq)]
pub struct Inputs {
    pub completed: u32,
    pub total: u32,
    pub charges: u64,
    pub net: ByProgram,
    pub could: ByProgram,
}

/// The lines of a worksheet: the percent earned in tenths of a percent, all else in cents. `returned` is the school's
/// part by program, `laid` the student's part by program and `owed` what of that the student repays; `post` is the
/// post-withdrawal disbursement.
#[derive(Clone, Copy, PartialEq, Eq, Debug)]
pub struct Lines {
    pub percent: u16,
    pub earned: u64,
    pub unearned: u64,
    pub school: u64,
    pub returned: ByProgram,
    pub student: u64,
    pub laid: ByProgram,
    pub owed: ByProgram,
    pub post: u64,
}

/// The worksheet of a withdrawal (34 CFR 668.22): what was earned up to the last day, what the school and the student
/// return of the rest, and what is still to be disbursed. All is earned past 60 percent of the days (668.22(e)(2)).
/// Amounts are below a million dollars, and the last day lies in the term.
pub fn worksheet(i: &Inputs) -> Lines
    requires { AreInputsInRange i.now }
    ensures lines { result ≡ worksheet_of i.now.completed i.now.total i.now.charges i.now.net i.now.could }
    ensures returned { sum result.returned ≡ result.school }
    ensures laid { sum result.laid ≡ result.student }
    ensures within { (p : ℕ) → slice_index result.returned p + slice_index result.laid p ≤ slice_index i.now.net p }
{
    worked_out(i)
}

// Every line.
#[tactic(auto, unfolding(crate::specs::Worksheet::worksheet_of))]
fn worked_out(i: &Inputs) -> Lines
    requires { AreInputsInRange i.now }
    ensures { result ≡ worksheet_of i.now.completed i.now.total i.now.charges i.now.net i.now.could }
{
    let percent = percent_earned(i.completed, i.total);
    let disbursed = i.net.sum();
    let earned = part_of(disbursed + i.could.sum(), percent);
    let unearned = disbursed.saturating_sub(earned);
    let school = unearned.min(part_of(i.charges, 1000 - percent));
    let returned = spread(school, &i.net);
    let student = unearned - school;
    let laid = spread(student, &i.net.minus(&returned));
    Lines {
        percent,
        earned,
        unearned,
        school,
        returned,
        student,
        laid,
        owed: owed(&laid, i),
        post: earned.saturating_sub(disbursed),
    }
}

// The percent of the term that was completed.
#[tactic(auto, unfolding(crate::specs::Worksheet::percent_earned))]
fn percent_earned(completed: u32, total: u32) -> u16
    requires begun { 1 ≤ completed }
    requires inside { completed ≤ total }
    ensures value { result ≡ percent_of completed total }
    ensures at_most { result ≤ 1000 }
{
    let completed = u64::from(completed);
    let total = u64::from(total);
    if 10 * completed > 6 * total {
        1000
    } else {
        nearest_whole(1000 * completed, total) as u16
    }
}

// The part of an amount that tenths of a percent take.
fn part_of(cents: u64, percent: u16) -> u64
    requires amount { cents ≤ 10 ^ 12 }
    requires part { percent ≤ 1000 }
    ensures value { result ≡ half_up (cents * percent) 1000 }
    ensures at_most { result ≤ cents }
{
    nearest_whole(cents * u64::from(percent), 1000)
}

// An amount spread over the programs in their order, each up to its own.
fn spread(left: u64, amounts: &ByProgram) -> ByProgram
    ensures { result ≡ spread_of left amounts.now }
{
    let amounts = amounts.cents();
    let mut parts = [0; 6];
    let mut rest = left;
    for p in 0..6 {
        let part = amounts[p].min(rest);
        parts[p] = part;
        rest -= part;
    }
    ByProgram::new(parts)
}

// What the student repays of each program: of the grants alone.
#[tactic(auto, using(aid_types::proofs::ProgramLemmas::cents_at))]
fn owed(laid: &ByProgram, i: &Inputs) -> ByProgram
    requires { AreInputsInRange i.now }
    ensures { result ≡ owed_by_program laid.now i.now.net i.now.could }
{
    let (net, could) = (i.net, i.could);
    let pell = Program::Pell;
    let fseog = Program::Fseog;
    let teach = Program::Teach;
    ByProgram::new([
        0,
        0,
        0,
        owed_of_grant(laid.at(pell), net.at(pell), could.at(pell)),
        owed_of_grant(laid.at(fseog), net.at(fseog), could.at(fseog)),
        owed_of_grant(laid.at(teach), net.at(teach), could.at(teach)),
    ])
}

// What the student repays of a grant.
fn owed_of_grant(laid: u64, net: u64, could: u64) -> u64
    requires disbursed { net ≤ 99999999 }
    requires not_disbursed { could ≤ 99999999 }
    ensures { result ≡ grant_owed laid (half_up (net + could) 2) }
{
    let above_half = laid.saturating_sub(nearest_whole(net + could, 2));
    if above_half <= 5000 { 0 } else { above_half }
}
