//! The order in which candidates are awarded.
ghost use Rattle.std.specs.Prelude.{◌≡◌, IsTrue, ◌↔◌};
ghost use Rattle.law_funds.specs.Order.{IsInOrder, comes_before as comes_before_of};

use crate::candidate::Candidate;

/// Whether candidates stand in the order of awards: the lowest index first (34 CFR 676.10(a)), of one index by the student's number.
pub fn is_in_order(list: &[Candidate]) -> bool
    ensures { IsTrue result ↔ IsInOrder list.now }
{
    list.is_sorted_by(|a, b| comes_before(a, b))
}

// Whether one candidate stands before another.
fn comes_before(a: &Candidate, b: &Candidate) -> bool
    ensures { result ≡ comes_before_of a.now b.now }
{
    a.sai < b.sai || a.sai == b.sai && a.student.0 < b.student.0
}
