// The bytes and the ranges of filings, said in few words and by the table of kinds. Each of these functions does nothing.
ghost use Rattle.std.specs.Prelude.{◌≡◌};
ghost use Rattle.aid_filings.specs.declared.filing.Filing.{Filing};
ghost use Rattle.format_bytes.specs.Spelling.{spelling};
ghost use Rattle.format_bytes.specs.Numbers.{IsFiling};
ghost use Rattle.run_claims.specs.Written.{CanBeFiled, kept_bytes};

/// A filing whose numbers are within the limits of its kind's fields can be filed, and one that can be filed has such numbers.
pub fn files_what_can_be()
    ensures can_be_filed { (f : Filing) → IsFiling f → CanBeFiled f }
    ensures is_filing { (f : Filing) → CanBeFiled f → IsFiling f }
{}

/// The bytes in which a filing is kept are its one spelling.
pub fn kept_as_spelled()
    ensures { (f : Filing) → CanBeFiled f → kept_bytes f ≡ spelling f }
{}
