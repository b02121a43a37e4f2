//! The texts of a desk's list that can be asked for, and the words that say them. It takes no memory.
ghost use Rattle.std.specs.Prelude.{◌≡◌, ◌≤◌, IfSome, bytes_eq, map, pos, string_bytes};
ghost use Rattle.aid_types.specs.Whole.{whole_between, whole_of};
ghost use Rattle.desk_sheets.specs.Words.{number_by, row_in, row_of_four, row_of_two, sheet_in, sheet_named as sheet_by_name};

use aid_types::read_whole;

/// The text that is asked for.
#[derive(Clone, Copy)]
pub enum DeskSheet {
    /// `report seal`: the line of the seal of the filings.
    Seal,
    /// `report seals`: such a line of each front of the list, that of no filing first, and how many they are.
    Seals,
}

/// A row of words: the text that is asked for, of the whole list, or of its first so many filings, 1 to 4,294,967,295.
#[derive(Clone, Copy)]
pub struct DeskSheetRow {
    pub upto: Option<u32>,
    pub sheet: DeskSheet,
}

// Whether the two are one word.
fn is_word(word: &str, name: &str) -> bool
    ensures { result ≡ bytes_eq word.now name.now }
{
    word == name
}

fn sheet_named(name: &str) -> Option<DeskSheet>
    ensures { result ≡ sheet_by_name name.now }
{
    if is_word(name, "seal") {
        Some(DeskSheet::Seal)
    } else if is_word(name, "seals") {
        Some(DeskSheet::Seals)
    } else {
        None
    }
}

// The text that two words ask for.
fn sheet_of(report: &str, name: &str) -> Option<DeskSheet>
    ensures { result ≡ sheet_in report.now name.now }
{
    if is_word(report, "report") {
        sheet_named(name)
    } else {
        None
    }
}

// The row of two words.
fn whole_row(report: &str, name: &str) -> Option<DeskSheetRow>
    ensures { result ≡ row_of_two report.now name.now }
{
    let sheet = sheet_of(report, name)?;
    Some(DeskSheetRow { upto: None, sheet })
}

// The position that a text spells.
fn position_in(text: &[u8]) -> Option<u64>
    ensures value { result ≡ number_by (whole_between (pos 1) (pos 4294967295) (whole_of text.now)) }
    ensures in_range { IfSome result (λ n. n ≤ 4294967295) }
{
    match read_whole(text, 1, 4_294_967_295) {
        Ok(number) => Some(number.unsigned_abs()),
        Err(_) => None,
    }
}

// The position that a word spells.
fn position_of(word: &str) -> Option<u32>
    ensures { result ≡ number_by (whole_between (pos 1) (pos 4294967295) (whole_of word.now)) }
{
    Some(position_in(word.as_bytes())? as u32)
}

// The row of four words.
fn row_upto(upto: &str, position: &str, report: &str, name: &str) -> Option<DeskSheetRow>
    ensures { result ≡ row_of_four upto.now position.now report.now name.now }
{
    if !is_word(upto, "upto") {
        return None;
    }
    let last = position_of(position)?;
    let sheet = sheet_of(report, name)?;
    Some(DeskSheetRow {
        upto: Some(last),
        sheet,
    })
}

/// The row that the words are: `report seal` or `report seals`, in front of which `upto POSITION` may stand. `None` where they are no row.
pub(crate) fn row_of(words: &[String]) -> Option<DeskSheetRow>
    ensures { result ≡ row_in (map string_bytes words.now) }
{
    match words {
        [report, name] => whole_row(report.as_str(), name.as_str()),
        [upto, position, report, name] => row_upto(
            upto.as_str(),
            position.as_str(),
            report.as_str(),
            name.as_str(),
        ),
        _ => None,
    }
}
