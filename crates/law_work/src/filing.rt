//! What a desk files of Federal Work-Study.
ghost use Rattle.std.specs.Prelude.{◌≤◌};

use aid_types::{Key, Student, Year};

/// What a school may award of Federal Work-Study in an award year, 0 to 9,999,999 dollars (HEA 442; 34 CFR 675.4).
#[derive(Clone, Copy)]
pub struct FundFacts {
    pub year: Year,
    pub dollars: u32,
    pub ghost in_range: { dollars ≤ 9999999 },
}

/// An award of the school to a student in an award year, or a part of one that is released, 0 to 9,999 dollars (34 CFR 675.9,
/// 675.10).
#[derive(Clone, Copy)]
pub struct DollarFacts {
    pub student: Student,
    pub year: Year,
    pub dollars: u32,
    pub ghost in_range: { dollars ≤ 9999 },
}

/// What a student worked at the school in an award year: 0 to 60,000 minutes at 0 to 100,000 cents an hour (34 CFR 675.24).
#[derive(Clone, Copy)]
pub struct EarnFacts {
    pub student: Student,
    pub year: Year,
    pub minutes: u32,
    pub wage: u32,
    pub ghost in_range: { (minutes ≤ 60000) × (wage ≤ 100000) },
}

/// What is filed, by kind. The school is the key's.
#[derive(Clone, Copy)]
pub enum WorkWhat {
    /// The fund of an award year.
    Fund(FundFacts),
    /// An award.
    Award(DollarFacts),
    /// An earning.
    Earn(EarnFacts),
    /// A part of an award that is released.
    Release(DollarFacts),
}

/// A filing: its key and what is filed.
#[derive(Clone, Copy)]
pub struct WorkFiling {
    pub key: Key,
    pub what: WorkWhat,
}
