//! Laws of histories, each as the contract of a function that computes nothing. A slice has the oldest filing first.
ghost use Rattle.std.specs.List.{AllByRecursion, AllPairs};
ghost use Rattle.std.specs.Prelude.{◌≡◌, ◌≢◌, ◌↔◌, ◌+◌, ◌<◌, ◌≤◌, ◌++◌, ◌∷◌, ℕ, true, None, IfSome, IsSome, IsTrue, reverse, length, take, Some, slice_get};
ghost use Rattle.aid_types.specs.declared.application.Application.{Application};
ghost use Rattle.aid_filings.specs.declared.filing.Filing.{Filing};
ghost use Rattle.aid_filings.specs.declared.filing.OriginateFacts.{OriginateFacts};
ghost use Rattle.aid_filings.specs.declared.filing.WithdrawFacts.{WithdrawFacts};
ghost use Rattle.aid_filings.specs.declared.filing.What.TheVariants.{Cost, Withdraw};
ghost use Rattle.aid_filings.specs.declared.reply.Response.TheVariants.{Again, Admit};
ghost use Rattle.office_history.specs.Applications.{IsFiledApplication, IsInForce};
ghost use Rattle.office_history.specs.Past.{amount_or, application, at_school, cost, earliest, key_at, originated_in, same_filing};
ghost use Rattle.office_history.specs.Positions.{cost_at};
ghost use Rattle.office_history.specs.Sheets.{CanBeWorkedOut};
ghost use Rattle.office_history.specs.Answer.{breaks, outcome_of, outcome_at, answer_of, is_admit, standing_of, IsLegal};
ghost use Rattle.office_history.specs.Within.{IsWithinEveryLimit};

use aid_filings::Filing;

/// A filing of a legal list, filed again, is answered by its position and the outcome of its admission, whatever came
/// after it.
pub fn repeated_filing(before: &[Filing], filing: &Filing, after: &[Filing])
    requires { IsLegal (reverse (before.now ++ filing.now ∷ after.now)) }
    ensures { answer_of (reverse (before.now ++ filing.now ∷ after.now)) filing.now ≡ Again (length before.now + 1) (outcome_of (reverse before.now) filing.now) }
{
    let _ = before;
    let _ = filing;
    let _ = after;
}

/// A filing with a new key that breaks no rule is answered `Admit`.
pub fn complete(history: &[Filing], filing: &Filing)
    requires new { key_at filing.now.key (reverse history.now) ≡ 0 }
    requires sound { breaks (reverse history.now) filing.now ≡ None }
    ensures { answer_of (reverse history.now) filing.now ≡ Admit (outcome_of (reverse history.now) filing.now) }
{
    let _ = history;
    let _ = filing;
}

/// A legal list has at most 1,000,000 filings.
pub fn legal_length(history: &[Filing])
    requires { IsLegal (reverse history.now) }
    ensures { length history.now ≤ 1000000 }
{
    let _ = history;
}

/// No key stands twice in a legal list.
pub fn legal_keys(history: &[Filing])
    requires { IsLegal (reverse history.now) }
    ensures { AllPairs (λ f g. f.key ≢ g.key) (reverse history.now) }
{
    let _ = history;
}

/// In a legal list no student stands above a limit: the payments of terms, years and of a lifetime, the cost of
/// attendance, and two schools at one time (HEA 401, 413B; 34 CFR 690.11, 690.63).
pub fn legal_within(history: &[Filing])
    requires { IsLegal (reverse history.now) }
    ensures { IsWithinEveryLimit (reverse history.now) }
{
    let _ = history;
}

/// 'The same filing' is equality: of two filings the test is true exactly where they are equal.
pub fn same_is_equal(filing: &Filing, other: &Filing)
    ensures { IsTrue (same_filing filing.now other.now) ↔ (filing.now ≡ other.now) }
{
    let _ = filing;
    let _ = other;
}

/// The first filings of a legal list are legal, and each filing of it has a new key and breaks no rule on those before it.
pub fn legal_front(history: &[Filing])
    requires { IsLegal (reverse history.now) }
    ensures front { (count : ℕ) → IsLegal (reverse (take count history.now)) }
    ensures each { (index : ℕ) (filing : Filing) → slice_get history.now index ≡ Some filing
        → (key_at filing.key (reverse (take index history.now)) ≡ 0) × (breaks (reverse (take index history.now)) filing ≡ None) }
{
    let _ = history;
}

/// A filing that is admitted after a legal list makes it a legal list of one more, and one that isn't doesn't.
pub fn admitted_is_legal(history: &[Filing], filing: &Filing)
    requires { IsLegal (reverse history.now) }
    ensures { (is_admit (answer_of (reverse history.now) filing.now) ≡ true) ↔ IsLegal (filing.now ∷ reverse history.now) }
{
    let _ = history;
    let _ = filing;
}

/// A withdrawal that breaks no rule on a legal list can be worked out: its term is on file and lawful, and its last day lies in
/// the term.
pub fn sound_is_worked_out(history: &[Filing], filing: &Filing)
    requires legal { IsLegal (reverse history.now) }
    requires sound { breaks (reverse history.now) filing.now ≡ None }
    ensures { (w : WithdrawFacts) → filing.now.what ≡ Withdraw w → CanBeWorkedOut (reverse history.now) filing.now.key w }
{
    let _ = history;
    let _ = filing;
}

/// What was admitted at a position stays, whatever came after it.
pub fn older_outcome(history: &[Filing], later: &[Filing])
    ensures { (position : ℕ) → position ≤ length history.now → outcome_at (reverse (history.now ++ later.now)) position ≡ outcome_at (reverse history.now) position }
{
    let _ = history;
    let _ = later;
}

/// The application in force of a student and a year is a filing of the history, and no other of theirs has a higher
/// transaction. Where any is filed, one is in force.
pub fn application_in_force(history: &[Filing])
    ensures filed { (student year : ℕ) → IfSome (application (reverse history.now) student year) (IsInForce (reverse history.now) student year) }
    ensures some { (student year : ℕ) (a : Application) → IsFiledApplication (reverse history.now) student year a → IsSome (application (reverse history.now) student year) }
{
    let _ = history;
}

/// In a legal list a student with a cost of attendance on file, at any school, has an application in force for the year, and
/// stands there with its transaction.
pub fn cost_has_application(history: &[Filing])
    requires { IsLegal (reverse history.now) }
    ensures originated { (school student year : ℕ) → 0 < cost_at (reverse history.now) school student year → IsSome (application (reverse history.now) student year) }
    ensures cost { (school student year : ℕ) → 0 < cost (reverse history.now) school student year → IsSome (application (reverse history.now) student year) }
    ensures standing { (school student year : ℕ) → 0 < cost_at (reverse history.now) school student year → 0 < (standing_of (reverse history.now) student year).transaction }
{
    let _ = history;
}

/// In a legal list in which no cost of attendance was changed, the one in force is that of the origination.
pub fn unchanged_cost(history: &[Filing])
    requires legal { IsLegal (reverse history.now) }
    requires unchanged { AllByRecursion (λ f. (o : OriginateFacts) → f.what ≢ Cost o) (reverse history.now) }
    ensures { (school student year : ℕ) → cost (reverse history.now) school student year
        ≡ amount_or (earliest (at_school school (originated_in student year)) (reverse history.now)) }
{
    let _ = history;
}
