//! The words of the programs of aid.
ghost use Rattle.std.specs.Prelude.{◌≡◌, map};
ghost use Rattle.format_kinds.specs.Kinds.{words_of_programs};

static PROGRAM_WORDS: [&str; 6] = ["unsub", "sub", "plus", "pell", "fseog", "teach"];

/// The words of the programs of aid, in the order of returns (34 CFR 668.22(i)), as a row and a body write them.
pub fn program_words() -> &'static [&'static str]
    ensures { map (λ word. word.now) result.now ≡ words_of_programs }
{
    &PROGRAM_WORDS
}
