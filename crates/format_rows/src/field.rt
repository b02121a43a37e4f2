//! The numbers of fields' texts, by the fields' forms.
ghost use Rattle.std.specs.Prelude.{◌≡◌, ◌≤◌, length, map, ◌-◌, ◌^◌, bytes_eq, neg_ℤ, ok_or, option_map, pos};
ghost use Rattle.std.specs.List.{position as place_among};
ghost use Rattle.std.specs.Result.{result_map_both};
ghost use Rattle.aid_types.specs.Cents.{cents_of, cents_up_to};
ghost use Rattle.aid_types.specs.declared.text.Malformed.TheVariants.{Spelling};
ghost use Rattle.law_terms.specs.DayText.{day_in as day_of_text};
ghost use Rattle.format_rows.specs.Fields.{day_number, number_in as number_of_text};

use aid_types::{Malformed, read_cents, read_whole};
use format_table::Form;
use law_terms::read_day;

/// The number that a text spells in a form, or why it spells none.
pub fn number_in(words: &[&str], form: Form, text: &[u8]) -> Result<i64, Malformed>
    requires { length words.now ≤ 256 }
    ensures { result ≡ number_of_text (map (λ word. word.now) words.now) form text.now }
{
    match form {
        Form::Cents => cents_in(text),
        Form::Day => day_in(text),
        Form::Word => word_in(words, text),
        _ => read_whole(text, i64::MIN, i64::MAX),
    }
}

fn cents_in(text: &[u8]) -> Result<i64, Malformed>
    ensures { result ≡ result_map_both (λ n. pos n) (λ e. e) (cents_up_to 99999999 (cents_of text.now)) }
{
    let cents = read_cents(text)?;
    Ok(cents as i64)
}

fn day_in(text: &[u8]) -> Result<i64, Malformed>
    ensures { result ≡ result_map_both day_number (λ e. e) (day_of_text text.now) }
{
    let day = read_day(text)?;
    Ok(i64::from(day.0))
}

fn word_in(words: &[&str], text: &[u8]) -> Result<i64, Malformed>
    requires { length words.now ≤ 256 }
    ensures { result ≡ ok_or (option_map (λ place. pos place) (place_among (λ word. bytes_eq word text.now) (map (λ word. word.now) words.now))) Spelling }
{
    match place_of(words, text) {
        Some(place) => Ok(place as i64),
        None => Err(Malformed::Spelling),
    }
}

fn place_of(words: &[&str], text: &[u8]) -> Option<usize>
    ensures { result ≡ place_among (λ word. bytes_eq word.now text.now) words.now }
{
    words.iter().position(|word| word.as_bytes() == text)
}
