//! What a round is asked for.
ghost use Rattle.aid_types.specs.Ranges.{IsBetween};

use aid_types::{School, Year};

/// A round of a fund of Federal Supplemental Educational Opportunity Grants: the school, the award year, the term, 1 to 8, the
/// fund in whole dollars, and the number of the first award's key, 1 to 999,999,000,000.
#[derive(Clone, Copy, PartialEq, Eq)]
pub struct RoundRequest {
    pub school: School,
    pub year: Year,
    pub term: u8,
    pub amount: u32,
    pub number: u64,
    pub ghost in_range: { IsBetween 1 8 term × IsBetween 1 999999000000 number },
}
