//! The numbers of values, by the forms of fields.
ghost use Rattle.std.specs.Prelude.{◌≡◌, bytes_eq};
ghost use Rattle.std.specs.List.{position as place_among};
ghost use Rattle.serde_json.specs.View.{view};
ghost use Rattle.law_terms.specs.DayText.{day_in as day_of_text};
ghost use Rattle.web_json.specs.Values.{day_said, number_said, program_said};

use format_kinds::program_words;
use format_table::Form;
use law_terms::read_day;
use serde_json::Value;

/// The number that a value says in a form, if it says one.
pub fn number_in(form: Form, value: &Value) -> Option<i64>
    ensures { result ≡ number_said form (view value.now) }
{
    match form {
        Form::Day => day_in(value.as_str()?),
        Form::Word => program_in(value.as_str()?),
        _ => value.as_i64(),
    }
}

fn day_in(text: &str) -> Option<i64>
    ensures { result ≡ day_said (day_of_text text.now) }
{
    match read_day(text.as_bytes()) {
        Ok(day) => Some(i64::from(day.0)),
        Err(_) => None,
    }
}

fn program_in(text: &str) -> Option<i64>
    ensures { result ≡ program_said text.now }
{
    let place = place_of(program_words(), text)?;
    Some(place as i64)
}

fn place_of(words: &[&str], text: &str) -> Option<usize>
    ensures { result ≡ place_among (λ word. bytes_eq word.now text.now) words.now }
{
    words.iter().position(|word| *word == text)
}
