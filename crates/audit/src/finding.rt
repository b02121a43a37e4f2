//! What an audit finds.

use aid_seals::Seal;

/// What a text is found to be.
#[derive(Clone, Copy, PartialEq, Eq)]
pub enum Finding {
    /// It is the export of a legal history, with so many filings and standings, and this is the seal of the filings.
    Yes {
        filings: u32,
        standings: u32,
        seal: Seal,
    },
    /// It is none: the first bad line, from 1, and the first cause that applies to it.
    No {
        line: u32,
        cause: u8,
    },
}

/// The line has no form, or stands out of order.
pub const STRAY: u8 = 1;
/// No filing under a stamp is spelled so.
pub const UNSPELLED: u8 = 2;
/// The filing has a key that was used before.
pub const USED_KEY: u8 = 3;
/// The filing breaks a rule.
pub const BROKEN_RULE: u8 = 4;
/// The student doesn't stand so, or stands behind no greater one.
pub const WRONG_STANDING: u8 = 5;
/// The counts are wrong, or the seal is.
pub const WRONG_COUNTS: u8 = 6;
/// The text ends without the last line.
pub const NO_END: u8 = 7;
/// There are more filings than an audit takes.
pub const TOO_MANY: u8 = 8;
/// The first filings, as many as were noted, have another seal.
pub const OTHER_SEAL: u8 = 9;
/// There are fewer filings than were noted.
pub const FEWER: u8 = 10;
