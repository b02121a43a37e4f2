//! The words of a run.
ghost use Rattle.std.specs.Prelude.{◌≡◌, ◌∷◌, [], ◌==◌, ◌<◌, ◌^◌, IfSome, None, Some, map, option_map, string_bytes};
ghost use Rattle.std.specs.Option.{option_copied};
ghost use Rattle.aid_types.specs.Ranges.{IsBetween};
ghost use Rattle.work_rounds.specs.Words.{are_word as are_this_word, list_in, number_in as number_in_word, policy_of as policy_of_school, round_in};

use aid_types::{School, Year, read_whole};
use law_funds::Policy;
use log_runs::ListCommand;
use work_study::SchoolPolicies;

/// What a round is asked for: the school, the award year, and the number of the first award's key, 1 to 999,999,000,000.
#[derive(Clone, Copy, PartialEq, Eq)]
pub struct RoundRequest {
    pub school: School,
    pub year: Year,
    pub number: u64,
}

// Whether the words are this one alone.
fn are_word(name: &str, words: &[String]) -> bool
    ensures { result ≡ are_this_word name.now (map string_bytes words.now) }
{
    match words {
        [word] => word.as_str() == name,
        _ => false,
    }
}

/// The command `found` or `file` that the words say, if any.
pub(crate) fn list_of(words: &Vec<String>) -> Option<ListCommand>
    ensures { result ≡ list_in (map string_bytes words.now.items) }
{
    if are_word("found", words.as_slice()) {
        Some(ListCommand::Found)
    } else if are_word("file", words.as_slice()) {
        Some(ListCommand::File)
    } else {
        None
    }
}

// The number that a word spells within bounds.
fn number_in(word: &str, low: u32, high: u64) -> Option<u64>
    requires { high < 2 ^ 63 }
    ensures value { result ≡ number_in_word low high word.now }
    ensures in_range { IfSome result (IsBetween low high) }
{
    match read_whole(word.as_bytes(), i64::from(low), high as i64) {
        Ok(number) => Some(number as u64),
        Err(_) => None,
    }
}

// The first policy of a school.
fn policy_of<'a>(policies: &'a SchoolPolicies, school: School) -> Option<&'a Policy>
    ensures { option_copied result ≡ policy_of_school policies.now.list.items school }
{
    let found = policies.list.iter().find(
        |entry|
            ensures { result ≡ entry.now.now.0 == school }
        { entry.0 == school },
    )?;
    Some(&found.1)
}

// The round of four words, where they are `round`, a school with a policy, a year and a number.
fn round_by<'a>(
    word: &str,
    school: &str,
    year: &str,
    number: &str,
    policies: &'a SchoolPolicies,
) -> Option<(RoundRequest, &'a Policy)>
    ensures round { option_map (λ round. round.0) result ≡ round_in policies.now.list.items (word.now ∷ school.now ∷ year.now ∷ number.now ∷ []) }
    ensures policy { IfSome result (λ round. policy_of_school policies.now.list.items round.0.school ≡ Some round.1.now) }
    ensures in_range { IfSome result (λ round. IsBetween 1 999999000000 round.0.number) }
{
    if word != "round" {
        return None;
    }
    let school = School(number_in(school, 0, 999_999)? as u32);
    let year = Year(number_in(year, 2_000, 2_099)? as u16);
    let number = number_in(number, 1, 999_999_000_000)?;
    let policy = policy_of(policies, school)?;
    Some((
        RoundRequest {
            school,
            year,
            number,
        },
        policy,
    ))
}

/// The round that the words say, with the policy of its school, if they are a round's.
pub(crate) fn round_of<'a>(
    words: &Vec<String>,
    policies: &'a SchoolPolicies,
) -> Option<(RoundRequest, &'a Policy)>
    ensures round { option_map (λ round. round.0) result ≡ round_in policies.now.list.items (map string_bytes words.now.items) }
    ensures policy { IfSome result (λ round. policy_of_school policies.now.list.items round.0.school ≡ Some round.1.now) }
    ensures in_range { IfSome result (λ round. IsBetween 1 999999000000 round.0.number) }
{
    if words.len() != 4 {
        return None;
    }
    round_by(
        words[0].as_str(),
        words[1].as_str(),
        words[2].as_str(),
        words[3].as_str(),
        policies,
    )
}
