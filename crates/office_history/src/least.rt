//! Laws on the least and the first: what a walk over the filings finds is the least, or the first, of those that pass. Each
//! is the contract of a function that computes nothing. A slice has the oldest filing first.
ghost use Rattle.std.specs.Prelude.{◌≡◌, ◌↔◌, ◌==◌, ◌+◌, ◌<◌, ℕ, Bool, Some, None, reverse};
ghost use Rattle.std.specs.List.{All, filter};
ghost use Rattle.aid_filings.specs.declared.filing.Filing.{Filing};
ghost use Rattle.office_history.specs.Past.{FiledTerm, first_at, terms_on_file};
ghost use Rattle.office_history.specs.Net.{pell_term};
ghost use Rattle.office_history.specs.Positions.{first_term_at, least_code, least_term, is_over, payment_at, term_over};
ghost use Rattle.office_history.specs.Answer.{IsLegal};
ghost use Rattle.office_history.specs.Least.{NonePasses, IsLeastBy, IsLeastNumber, AreOrdered, IsFirst, IsFiledTerm, is_before};

use aid_filings::Filing;

/// Where of two different things one comes before the other, there is one least at most.
pub fn one_least<T>(things: &[T])
    ensures { (is_before : T → T → Bool) (passes : T → Bool) (x y : T) → AreOrdered is_before passes things.now
        → IsLeastBy is_before passes things.now x → IsLeastBy is_before passes things.now y → x ≡ y }
{
    let _ = things;
}

/// Of the terms on file that pass a test, the one found has the least school code and, of that school, the least number;
/// none is found exactly where none passes.
pub fn least_term_found(history: &[Filing])
    ensures none { let terms = terms_on_file (reverse history.now) in (passes : FiledTerm → Bool) → (least_term (filter passes terms) ≡ None) ↔ NonePasses passes terms }
    ensures least { let terms = terms_on_file (reverse history.now) in (passes : FiledTerm → Bool) (term : FiledTerm) → least_term (filter passes terms) ≡ Some term → IsLeastBy is_before passes terms term }
{
    let _ = history;
}

/// Of two terms on file of one year, in a legal list, one comes before the other by school code and number.
pub fn terms_ordered(history: &[Filing])
    requires { IsLegal (reverse history.now) }
    ensures { (year : ℕ) → AreOrdered is_before (λ t. t.year == year) (terms_on_file (reverse history.now)) }
{
    let _ = history;
}

/// Rule 93 tells of the least term of the year, by school code and number, that holds more net Pell than the award gives: its
/// net Pell and its payment. It tells nothing exactly where there is no such term.
pub fn least_term_over(history: &[Filing])
    requires { IsLegal (reverse history.now) }
    ensures none { let past = reverse history.now in (award student year : ℕ) → (term_over past award student year ≡ None) ↔ NonePasses (is_over past award student year) (terms_on_file past) }
    ensures least { let past = reverse history.now in (award student year : ℕ) (t : FiledTerm) → IsLeastBy is_before (is_over past award student year) (terms_on_file past) t
        → term_over past award student year ≡ Some (record {
          rule = 93;
          kept = pell_term past t.school student year t.term.number;
          bound = payment_at past award t.school student year t.term.number;
        }) }
{
    let _ = history;
}

/// The least school code of the terms on file that pass a test, which rule 58 tells. In a legal list each term's code is
/// above 0, so 0 stands for none.
pub fn least_code_found(history: &[Filing])
    requires { IsLegal (reverse history.now) }
    ensures codes { All (λ t. 0 < t.school) (terms_on_file (reverse history.now)) }
    ensures none { let terms = terms_on_file (reverse history.now) in (passes : FiledTerm → Bool) → (least_code passes terms ≡ 0) ↔ NonePasses passes terms }
    ensures least { let terms = terms_on_file (reverse history.now) in (passes : FiledTerm → Bool) (code : ℕ) → 0 < code
        → (least_code passes terms ≡ code) ↔ IsLeastNumber (λ t. t.school) passes terms code }
{
    let _ = history;
}

/// The position of the first filing that passes a test: 0 exactly where none passes, and otherwise one more than its index.
pub fn first_found(history: &[Filing])
    ensures none { (passes : Filing → Bool) → (first_at passes (reverse history.now) ≡ 0) ↔ NonePasses passes history.now }
    ensures first { (passes : Filing → Bool) (index : ℕ) → (first_at passes (reverse history.now) ≡ index + 1) ↔ IsFirst passes history.now index }
{
    let _ = history;
}

/// The same of the terms on file: the least position of those that pass, and 0 exactly where none passes. A term's position
/// is that of its calendar.
pub fn first_term_found(history: &[Filing])
    ensures filed { All (IsFiledTerm history.now) (terms_on_file (reverse history.now)) }
    ensures none { let terms = terms_on_file (reverse history.now) in (passes : FiledTerm → Bool) → (first_term_at passes terms ≡ 0) ↔ NonePasses passes terms }
    ensures first { let terms = terms_on_file (reverse history.now) in (passes : FiledTerm → Bool) (position : ℕ) → 0 < position
        → (first_term_at passes terms ≡ position) ↔ IsLeastNumber (λ t. t.position) passes terms position }
{
    let _ = history;
}
