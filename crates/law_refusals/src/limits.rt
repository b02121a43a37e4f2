// The limits of `IsWithinEveryLimit`, each by filings that bring a student to it, and others that bring a cent, a unit or a day more.
// Each of these functions does nothing. A Scheduled Award is 7,395 dollars, whatever else the book and the application say; what is
// reached is reached by a student with a term at one school and, from the day after it, a term and an extra one at another.
ghost use Rattle.std.specs.Prelude.{◌≡◌, ◌≢◌, ◌+◌, ◌<◌, Bool, false, List, [], ◌∷◌, Some};
ghost use Rattle.aid_books.specs.declared.book.Book.{Book};
ghost use Rattle.aid_filings.specs.declared.filing.Amount.{Amount};
ghost use Rattle.aid_filings.specs.declared.filing.Filing.{Filing};
ghost use Rattle.aid_filings.specs.declared.filing.PriorFacts.{PriorFacts};
ghost use Rattle.aid_filings.specs.declared.filing.What.TheVariants.{Adjust, Pay, Prior};
ghost use Rattle.aid_types.specs.Limits.{fseog_limit, most_units};
ghost use Rattle.aid_types.specs.declared.application.Application.{Application};
ghost use Rattle.aid_types.specs.declared.number.Key.{Key};
ghost use Rattle.aid_types.specs.declared.number.Program.TheVariants.{Fseog};
ghost use Rattle.aid_types.specs.declared.term.Term.{Term};
ghost use Rattle.law_refusals.specs.Reached.{ArePell, HasAward, IsReached, paid_too};
ghost use Rattle.office_history.specs.Award.{scheduled};
ghost use Rattle.office_history.specs.Net.{Cell, at_school_in_year, cell_at, cell_of, in_year, is_cell, net, net_at, paid, pell_main, pell_term, pell_year, taken, used};
ghost use Rattle.office_history.specs.Past.{cost, credits, is_extra, the_school, the_term};
ghost use Rattle.office_history.specs.Positions.{full_of, terms_of};
ghost use Rattle.office_history.specs.Within.{IsWithinEveryLimit};

/// Lifetime eligibility used: 600,000 thousandths of a percent stand at the limit, and one more is past it (HEA 401(d)(5)).
pub fn lifetime_limit()
    ensures at { (key : Key) (p : PriorFacts) → p.units ≡ 600000 → used (record { key = key; what = Prior p } ∷ []) p.student ≡ most_units }
    ensures beyond { (key : Key) (p : PriorFacts) → p.units ≡ 600001 → IsWithinEveryLimit (record { key = key; what = Prior p } ∷ []) → ⊥ }
{}

/// Supplemental Grants of a year: 4,000 dollars stand at the limit, and a cent more is past it (HEA 413B(a)(2)).
pub fn supplemental_limit()
    ensures at { (key : Key) (a : Amount) → a.program ≡ Fseog → a.cents ≡ 400000 → net (record { key = key; what = Pay a } ∷ []) (in_year a.student a.year 4) ≡ fseog_limit }
    ensures beyond { (key : Key) (a : Amount) → a.program ≡ Fseog → a.cents ≡ 400001 → IsWithinEveryLimit (record { key = key; what = Pay a } ∷ []) → ⊥ }
{}

/// Pell of a term, full time at a school of two main terms: half the award, to the nearest dollar, stands at the limit, and a cent more
/// is past it (HEA 401(b)(2); 34 CFR 690.63(b)).
pub fn term_limit()
    ensures at { (b : Book) (a : Application) → HasAward b a 7395 → IsReached (λ past. (scheduled past a.student a.year ≡ 7395)
        × (terms_of (the_school past 110) ≡ 2) × (full_of (the_school past 110) ≡ 12) × (credits past 110 a.student a.year 1 ≡ 12)
        × (pell_year past a.student a.year ≡ 1109250) × (net_at past (cell_at 110 a.student a.year 1 1) ≡ 20000)
        × (pell_term past 110 a.student a.year 1 ≡ 369800)) }
    ensures beyond { (past : List Filing) (k l : Key) (p q : Amount) → IsWithinEveryLimit past → ArePell p q → l.school ≡ k.school → q.term ≡ p.term
        → scheduled past p.student p.year ≡ 7395 → terms_of (the_school past k.school) ≡ 2 → full_of (the_school past k.school) ≡ 12
        → credits past k.school p.student p.year p.term ≡ 12 → p.cents + q.cents ≡ 369801 → IsWithinEveryLimit (paid_too past k p l q) → ⊥ }
{}

/// Pell of a year's main terms, at all schools: the award stands at the limit, and a cent more is past it (HEA 401(b)).
pub fn main_terms_limit()
    ensures at { (b : Book) (a : Application) → HasAward b a 7395 → IsReached (λ past. (scheduled past a.student a.year ≡ 7395)
        × (pell_year past a.student a.year ≡ 1109250) × (net_at past (cell_at 110 a.student a.year 1 1) ≡ 20000)
        × (pell_main past a.student a.year ≡ 739500)) }
    ensures beyond { (past : List Filing) (k l : Key) (p q : Amount) → IsWithinEveryLimit past → ArePell p q → scheduled past p.student p.year ≡ 7395
        → is_extra (the_term past k.school p.year p.term) ≡ false → is_extra (the_term past l.school q.year q.term) ≡ false
        → p.cents + q.cents ≡ 739501 → IsWithinEveryLimit (paid_too past k p l q) → ⊥ }
{}

/// Pell of a year, at all schools and in extra terms too: one and a half of the award stands at the limit, and a cent more is past it
/// (HEA 401(b)).
pub fn year_limit()
    ensures at { (b : Book) (a : Application) → HasAward b a 7395 → IsReached (λ past. (scheduled past a.student a.year ≡ 7395)
        × (net_at past (cell_at 110 a.student a.year 1 1) ≡ 20000) × (pell_year past a.student a.year ≡ 1109250)) }
    ensures beyond { (past : List Filing) (k l : Key) (p q : Amount) → IsWithinEveryLimit past → ArePell p q → scheduled past p.student p.year ≡ 7395
        → p.cents + q.cents ≡ 1109251 → IsWithinEveryLimit (paid_too past k p l q) → ⊥ }
{}

/// All programs at a school in a year: the cost of attendance stands at the limit, and a cent more is past it (HEA 401(b)(3) for Pell;
/// own for all programs together).
pub fn cost_limit()
    ensures at { (b : Book) (a : Application) → HasAward b a 7395 → IsReached (λ past. (cost past 110 a.student a.year ≡ 3898)
        × (pell_year past a.student a.year ≡ 1109250) × (net past (at_school_in_year 110 a.student a.year) ≡ 389800)) }
    ensures beyond { (past : List Filing) (k l : Key) (p q : Amount) → IsWithinEveryLimit past → l.school ≡ k.school → q.student ≡ p.student
        → q.year ≡ p.year → cost past k.school p.student p.year ≡ 3898 → p.cents + q.cents ≡ 389801 → IsWithinEveryLimit (paid_too past k p l q) → ⊥ }
{}

/// What is taken back: all that was paid of a program stands at the limit, and a cent more is past it (own, on 34 CFR 690.80); and so
/// of any programs and terms together.
pub fn taken_back_limit()
    ensures at { (b : Book) (a : Application) → HasAward b a 7395
        → IsReached (λ past. (paid past (is_cell (cell_at 110 a.student a.year 1 0)) ≡ 500) × (taken past (is_cell (cell_at 110 a.student a.year 1 0)) ≡ 500)) }
    ensures beyond { (past : List Filing) (k : Key) (p : Amount) → net_at past (cell_of k p) ≡ 500 → p.cents ≡ 501
        → IsWithinEveryLimit (record { key = k; what = Adjust p } ∷ past) → ⊥ }
    ensures together { (past : List Filing) (cells : Cell → Bool) → paid past cells ≡ 500 → taken past cells ≡ 501 → IsWithinEveryLimit past → ⊥ }
{}

/// Pell at two schools: a term that begins on the day after the other's last may be paid as well, and one that begins on that day may
/// not (HEA 401(d)(3); 34 CFR 690.11).
pub fn two_schools_limit()
    ensures at { (b : Book) (a : Application) → HasAward b a 7395 → IsReached (λ past. (t : Term) × (u : Term)
        × (the_term past 110 a.year 1 ≡ Some t) × (the_term past 120 a.year 2 ≡ Some u) × (t.first < t.last) × (u.first ≡ t.last + 1)
        × (pell_term past 110 a.student a.year 1 ≡ 369800) × (pell_term past 120 a.student a.year 2 ≡ 369700)) }
    ensures beyond { (past : List Filing) (k l : Key) (p q : Amount) (t u : Term) → IsWithinEveryLimit past → ArePell p q → k.school ≢ l.school
        → the_term past k.school p.year p.term ≡ Some t → the_term past l.school q.year q.term ≡ Some u
        → t.first ≡ 45899 → t.last ≡ 46001 → u.first ≡ 46001 → u.last ≡ 46099
        → 0 < p.cents → 0 < q.cents → IsWithinEveryLimit (paid_too past k p l q) → ⊥ }
{}
