// What follows from the definitions alone, said of no call. The function does nothing.
ghost use Rattle.std.specs.Prelude.{◌≡◌, List, Result, map};
ghost use Rattle.aid_filings.specs.declared.filing.Filing.{Filing};
ghost use Rattle.format_filings.specs.Rows.{said};
ghost use Rattle.format_rows.specs.declared.error.RowError.{RowError};

/// Rows are told by what they say, so a text has one list of them at most.
pub fn once()
    ensures { (one other : List (Result Filing RowError)) → map said one ≡ map said other → one ≡ other }
{}
