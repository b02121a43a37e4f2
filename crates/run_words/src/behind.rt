//! The words behind the name of a command, as `clap` reads them. None of them begins with a hyphen, so that none is a flag.
ghost use Rattle.std.specs.Prelude.{◌≡◌, ◌≢◌, ◌↔◌, ◌∷◌, [], true, Some, IfOk, IsSome, IsTrue, MatchOption, length, map, string_bytes};
ghost use Rattle.clap.specs.Words.{app_of, first_value, found_of, is_simple_and_free, with_rule};
ghost use Rattle.run_words.specs.Behind.{Parses, bare_app, fund_app, generate_app, number_app, quote_app, required_rule};
ghost use Rattle.run_words.specs.Words.{ArePlain};

use clap::error::ErrorKind;
use clap::{Arg, ArgMatches, Command};
use std::alloc::{AllocError, Global};

/// The words of a generated year.
#[derive(Drop)]
pub struct GenerateWords<'a> {
    pub seed: &'a str,
    pub students: &'a str,
}

/// The words of a quote.
#[derive(Drop)]
pub struct QuoteWords<'a> {
    pub school: &'a str,
    pub student: &'a str,
    pub year: &'a str,
    pub term: &'a str,
}

/// The words of a round of awards.
#[derive(Drop)]
pub struct FundWords<'a> {
    pub school: &'a str,
    pub year: &'a str,
    pub term: &'a str,
    pub amount: &'a str,
    pub policy: &'a str,
    pub number: &'a str,
}

// A command of no word, with no flag for help or the version. It reads the words behind its name.
fn bare<'a>(alloc: Global, name: &'a str) -> Command<'a>
    ensures { app_of result ≡ bare_app name.entry.now }
{
    Command::new(alloc, name)
        .no_binary_name(true)
        .disable_help_flag(true)
        .disable_version_flag(true)
}

// The command with one more word, which has to be there.
fn with_word<'a>(
    command: Command<'a>,
    alloc: Global,
    id: &'a str,
) -> Result<Command<'a>, AllocError>
    ensures { IfOk result (λ c. app_of c ≡ with_rule (app_of command.entry) (required_rule id.entry.now)) }
{
    command.arg(Arg::new(alloc, id).required(true))
}

// What the command finds in the words behind its name, and nothing where they aren't its.
fn matches_in<'a>(
    command: Command<'a>,
    words: &'a [String],
) -> Result<Option<ArgMatches<'a>>, AllocError>
    requires { is_simple_and_free (app_of command) ≡ true }
    ensures { IfOk result (Parses (app_of command.entry) (map string_bytes words.entry.now)) }
{
    match command.try_get_matches_from(words) {
        Ok(matches) => Ok(Some(matches)),
        Err(error) => match error.kind() {
            ErrorKind::OutOfMemory => Err(AllocError),
            _ => Ok(None),
        },
    }
}

// The word of an id that was found.
fn value<'a>(matches: &ArgMatches<'a>, id: &str) -> &'a str
    requires { IsSome (first_value (found_of matches.now) id.now) }
    ensures { first_value (found_of matches.now) id.now ≡ Some result.now }
{
    matches.get_str(id).unwrap()
}

/// Whether no word stands behind the name.
pub fn is_alone(alloc: Global, name: &str, words: &[String]) -> Result<bool, AllocError>
    requires { ArePlain (map string_bytes words.now) }
    ensures { IfOk result (λ alone. IsTrue alone ↔ (map string_bytes words.now ≡ [])) }
{
    let found = matches_in(bare(alloc, name), words)?;
    Ok(found.is_some())
}

fn number_command<'a>(alloc: Global, name: &'a str) -> Result<Command<'a>, AllocError>
    ensures { IfOk result (λ c. app_of c ≡ number_app name.entry.now) }
{
    with_word(bare(alloc, name), alloc, "number")
}

/// The one word behind the name, where it is the only one: a number.
pub fn number_behind<'a>(
    alloc: Global,
    name: &'a str,
    words: &'a [String],
) -> Result<Option<&'a str>, AllocError>
    requires { ArePlain (map string_bytes words.now) }
    ensures { IfOk result (λ r. MatchOption r (length (map string_bytes words.entry.now) ≢ 1) (λ number. map string_bytes words.entry.now ≡ number.now ∷ [])) }
{
    let command = number_command(alloc, name)?;
    let Some(matches) = matches_in(command, words)? else {
        return Ok(None);
    };
    Ok(Some(value(&matches, "number")))
}

fn generate_command<'a>(alloc: Global) -> Result<Command<'a>, AllocError>
    ensures { IfOk result (λ c. app_of c ≡ generate_app) }
{
    let command = with_word(bare(alloc, "generate"), alloc, "seed")?;
    with_word(command, alloc, "students")
}

/// The words behind `generate`, where they are as many as it has.
pub fn generate_words<'a>(
    alloc: Global,
    words: &'a [String],
) -> Result<Option<GenerateWords<'a>>, AllocError>
    requires { ArePlain (map string_bytes words.now) }
    ensures { IfOk result (λ r. MatchOption r (length (map string_bytes words.entry.now) ≢ 2) (λ w. map string_bytes words.entry.now ≡ w.seed.now ∷ w.students.now ∷ [])) }
{
    let command = generate_command(alloc)?;
    let Some(matches) = matches_in(command, words)? else {
        return Ok(None);
    };
    let seed = value(&matches, "seed");
    let students = value(&matches, "students");
    Ok(Some(GenerateWords { seed, students }))
}

fn quote_command<'a>(alloc: Global) -> Result<Command<'a>, AllocError>
    ensures { IfOk result (λ c. app_of c ≡ quote_app) }
{
    let command = with_word(bare(alloc, "quote"), alloc, "school")?;
    let command = with_word(command, alloc, "student")?;
    let command = with_word(command, alloc, "year")?;
    with_word(command, alloc, "term")
}

/// The words behind `quote`, where they are as many as it has.
pub fn quote_words<'a>(
    alloc: Global,
    words: &'a [String],
) -> Result<Option<QuoteWords<'a>>, AllocError>
    requires { ArePlain (map string_bytes words.now) }
    ensures { IfOk result (λ r. MatchOption r (length (map string_bytes words.entry.now) ≢ 4) (λ w. map string_bytes words.entry.now ≡ w.school.now ∷ w.student.now ∷ w.year.now ∷ w.term.now ∷ [])) }
{
    let command = quote_command(alloc)?;
    let Some(matches) = matches_in(command, words)? else {
        return Ok(None);
    };
    let school = value(&matches, "school");
    let student = value(&matches, "student");
    let year = value(&matches, "year");
    let term = value(&matches, "term");
    Ok(Some(QuoteWords {
        school,
        student,
        year,
        term,
    }))
}

fn fund_command<'a>(alloc: Global) -> Result<Command<'a>, AllocError>
    ensures { IfOk result (λ c. app_of c ≡ fund_app) }
{
    let command = with_word(bare(alloc, "fund"), alloc, "school")?;
    let command = with_word(command, alloc, "year")?;
    let command = with_word(command, alloc, "term")?;
    let command = with_word(command, alloc, "amount")?;
    let command = with_word(command, alloc, "policy")?;
    with_word(command, alloc, "number")
}

/// The words behind `fund`, where they are as many as it has.
pub fn fund_words<'a>(
    alloc: Global,
    words: &'a [String],
) -> Result<Option<FundWords<'a>>, AllocError>
    requires { ArePlain (map string_bytes words.now) }
    ensures { IfOk result (λ r. MatchOption r (length (map string_bytes words.entry.now) ≢ 6)
        (λ w. map string_bytes words.entry.now ≡ w.school.now ∷ w.year.now ∷ w.term.now ∷ w.amount.now ∷ w.policy.now ∷ w.number.now ∷ [])) }
{
    let command = fund_command(alloc)?;
    let Some(matches) = matches_in(command, words)? else {
        return Ok(None);
    };
    let school = value(&matches, "school");
    let year = value(&matches, "year");
    let term = value(&matches, "term");
    let amount = value(&matches, "amount");
    let policy = value(&matches, "policy");
    let number = value(&matches, "number");
    Ok(Some(FundWords {
        school,
        year,
        term,
        amount,
        policy,
        number,
    }))
}
