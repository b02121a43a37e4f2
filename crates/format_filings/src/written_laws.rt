//! Rows read back.
ghost use Rattle.std.specs.Prelude.{◌≡◌, ℕ, All, map, nat_le, true, Ok};
ghost use Rattle.std.specs.List.{list_all};
ghost use Rattle.format_filings.specs.Rows.{filing_said, has_rows, meanings, row_meaning};
ghost use Rattle.format_bytes.specs.Numbers.{IsFiling, kind_of};
ghost use Rattle.format_filings.specs.WrittenRows.{row_text, row_texts, rows_text};

use aid_filings::Filing;
use format_bytes::numbers_in;

/// The row of a filing that is no book means this filing, whatever its number in a text. The text of such rows, each with a
/// line feed behind it, means exactly these filings, in order. A law: it makes nothing.
pub fn rows_read_back(filings: &[Filing])
    ensures row { (row : ℕ) → All (λ f. has_rows (kind_of f.what) ≡ true → row_meaning row (row_texts f) ≡ Ok (filing_said f)) filings.now }
    ensures text { list_all (λ f. has_rows (kind_of f.what)) filings.now ≡ true
        → meanings (rows_text filings.now) ≡ map (λ f. Ok (filing_said f)) filings.now }
{
    are_filings(filings);
}

// The numbers of each filing are within the limits of its kind's fields.
fn are_filings(filings: &[Filing])
    ensures { All IsFiling filings.now }
{
    for filing in filings {
        let _numbers = numbers_in(filing);
    }
}

/// No byte of a filing's row comes before the comma. So a row has no blank, no quote and no end of a line within it, and stands
/// as one word in a line whose words have a blank between each two. A law: it makes nothing.
pub fn rows_are_words(filings: &[Filing])
    ensures { All (λ f. list_all (λ b. nat_le 44 b) (row_text f) ≡ true) filings.now }
{
    let _ = filings;
}
