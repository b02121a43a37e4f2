// What a row means by the table of kinds is what it files in few words. Each of these functions does nothing.
ghost use Rattle.std.specs.Prelude.{◌≡◌, ◌↔◌, ℕ, List, Ok, Err};
ghost use Rattle.aid_filings.specs.declared.filing.Filing.{Filing};
ghost use Rattle.format_filings.specs.Rows.{row_meaning};
ghost use Rattle.format_rows.specs.declared.error.RowError.{RowError};
ghost use Rattle.format_bytes.specs.Numbers.{IsFiling, kind_of, numbers_of};
ghost use Rattle.run_claims.specs.Written.{Files, IsInRange, Number, Spells};

/// A row is read as a filing exactly where it files it: the name of its kind, and a text for each number.
pub fn row_files()
    ensures { (number : ℕ) (row : List (List ℕ)) (f : Filing) → (row_meaning number row ≡ Ok (kind_of f.what, numbers_of f)) ↔ Files row f }
{}

/// A row files one filing at most.
pub fn row_files_once()
    ensures { (row : List (List ℕ)) (f g : Filing) → Files row f → Files row g → f ≡ g }
{}

/// The numbers of a row that is read fit their fields.
pub fn meant_in_range()
    ensures { (number : ℕ) (row : List (List ℕ)) (f : Filing) → row_meaning number row ≡ Ok (kind_of f.what, numbers_of f) → IsFiling f }
{}

/// A number of a filing has one text: a day, which is written as year, month and day, as well as any other.
pub fn spelled_once()
    ensures { (n : Number) (one other : List ℕ) → IsInRange n → Spells n one → Spells n other → one ≡ other }
{}

/// A row that isn't read is told by its own number.
pub fn row_named()
    ensures { (number : ℕ) (row : List (List ℕ)) (e : RowError) → row_meaning number row ≡ Err e → e.row ≡ number }
{}
