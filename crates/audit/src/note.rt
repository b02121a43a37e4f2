//! A note of a seal.

use aid_seals::Seal;

/// What was noted of a list at some time: how many filings it had, and their seal.
#[derive(Clone, Copy)]
pub struct Note {
    pub count: u32,
    pub seal: Seal,
}
