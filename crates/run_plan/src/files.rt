//! The files that desks read.
ghost use Rattle.std.specs.Prelude.{◌≡◌, ◌∷◌, [], ℕ, List, codes, map, string_bytes};
ghost use Rattle.aid_stamps.specs.declared.stamp.Stamp.{Stamp as StampData};
ghost use Rattle.run_words.specs.Stamped.{IsStamped};
ghost use Rattle.run_plan.specs.Plans.{behind_first};

use run_words::behind_at;

/// The files behind `desks`, in front of which a stamp may stand: all words behind that one, in order.
pub fn desk_files(words: &[String]) -> &[String]
    ensures stamped { (stamp : StampData) (files : List (List ℕ)) → IsStamped (map string_bytes words.now) stamp (codes "desks" ∷ files) → map string_bytes result.now ≡ files }
    ensures alone { (files : List (List ℕ)) → map string_bytes words.now ≡ codes "desks" ∷ files → map string_bytes result.now ≡ files }
{
    match behind_at(words) {
        Some((_, rest)) => behind_name(rest),
        None => &words[..0],
    }
}

// The words behind the first.
fn behind_name(words: &[String]) -> &[String]
    ensures { map string_bytes result.now ≡ behind_first (map string_bytes words.now) }
{
    match words.split_first() {
        Some((_, files)) => files,
        None => words,
    }
}
