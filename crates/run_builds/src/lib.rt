//! Runs over two journals: an upgrade and an amendment, which build one of the other, and a comparison.
//!
//! `upgrade` copies a journal of version 1 into one of version 2, each filing under the plain stamp. `amend` copies a journal with
//! corrections. Both read the whole source and judge it first, and build the target whole: the source is never written, and the target
//! is no office before it has all filings. `changes` tells what differs between two journals, and writes neither.
#![tactic(auto)]

mod amendment;
mod comparing;
mod ending;
mod filings;
mod source;
mod target;
mod upgrading;

pub use amendment::{AmendRequest, amend};
pub use comparing::changes;
pub use upgrading::upgrade;
