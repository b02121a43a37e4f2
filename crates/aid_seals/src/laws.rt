//! Laws of seals, each as the contract of a function that computes nothing. Nothing is assumed of SHA-256.
ghost use Rattle.std.specs.Prelude.{◌≡◌, ◌⊎◌, ℕ, List};
ghost use Rattle.aid_seals.specs.Seals.{AreOne, IsCollision, IsName, clash, first_of, seal, sealed_line};

/// Two lists with one seal are one list, of one name, or the two messages that `clash` finds in them are a collision of SHA-256.
#[tactic(auto, using(crate::proofs::Clashes::one_or_clash))]
pub fn one_list()
    ensures { (name : List ℕ) (past : List (List ℕ)) (other_name : List ℕ) (other : List (List ℕ)) → IsName name → IsName other_name → seal name past ≡ seal other_name other
        → AreOne name past other_name other ⊎ IsCollision (clash name past other_name other) }
{}

/// A list of which some first entries have a seal that was noted begins with the list of which it was noted, or the messages that
/// `clash` finds are a collision.
#[tactic(auto, using(crate::proofs::Clashes::begins_or_clash))]
pub fn front_stands()
    ensures { (name : List ℕ) (noted past : List (List ℕ)) (front : ℕ) → IsName name → seal name (first_of front past) ≡ seal name noted
        → (first_of front past ≡ noted) ⊎ IsCollision (clash name (first_of front past) name noted) }
{}

/// The same where the two lines that tell of the seals read alike, whatever counts stand in them: the 64 digits are enough.
#[tactic(auto, using(crate::proofs::Lines::line_or_clash))]
pub fn one_line()
    ensures { (name : List ℕ) (past : List (List ℕ)) (other_name : List ℕ) (other : List (List ℕ)) (count other_count : ℕ) → IsName name → IsName other_name
        → sealed_line count (seal name past) ≡ sealed_line other_count (seal other_name other)
        → AreOne name past other_name other ⊎ IsCollision (clash name past other_name other) }
{}
