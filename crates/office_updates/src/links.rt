//! What an enrollment tells of its place, its school and its term.
ghost use Rattle.std.specs.Prelude.{◌≡◌, ◌∷◌, ◌++◌, [], ℕ, List};
ghost use Rattle.aid_filings.specs.declared.filing.Filing.{Filing as Filed};
ghost use Rattle.office_history.specs.declared.rows.PlaceRow.{PlaceRow};
ghost use Rattle.office_updates.specs.declared.links.EnrollmentLink.{EnrollmentLink as Linked};
ghost use Rattle.office_history.specs.declared.names.StudentPlace.{StudentPlace};
ghost use Rattle.office_updates.specs.Links.{AreLinked, IsLinkable, link_told};

use aid_filings::{Filing, What};

/// The link of a filing. An enrollment's tells the slot of the row of its place, and the positions of its school and of its
/// term. What isn't told is 0.
#[derive(Clone, Copy, PartialEq, Eq)]
pub struct EnrollmentLink {
    pub slot: u32,
    pub school_at: u32,
    pub term_at: u32,
}

// A link that tells nothing.
const NOTHING: EnrollmentLink = EnrollmentLink {
    slot: 0,
    school_at: 0,
    term_at: 0,
};

/// The link of a filing that comes after others. An enrollment's tells the slot of the row of its place, and the positions of
/// its school and of its term. Where the one before each filing stands is kept in `befores`, a list beside the links.
pub fn link_of(filing: &Filing, slot: u32, school_at: u32, term_at: u32) -> EnrollmentLink
    ensures { (past : List Filed) (old new : List (StudentPlace × PlaceRow)) (befores : List ℕ) (newest : ℕ) (links : List Linked)
        → IsLinkable past old new filing.now newest slot school_at term_at
        → AreLinked past old befores links → AreLinked (filing.now ∷ past) new (befores ++ newest ∷ []) (links ++ result ∷ []) }
{
    link_in(&filing.what, slot, school_at, term_at)
}

// The same of what is filed.
fn link_in(what: &What, slot: u32, school_at: u32, term_at: u32) -> EnrollmentLink
    ensures { result ≡ link_told what.now slot school_at term_at }
{
    match what {
        What::Enroll(_) => EnrollmentLink {
            slot,
            school_at,
            term_at,
        },
        _ => NOTHING,
    }
}
