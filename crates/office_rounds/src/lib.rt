//! Rounds of a fund of Federal Supplemental Educational Opportunity Grants on an office: whom the fund may award, what of it
//! is left to award, and the payments that a round files (HEA 413C(c); 34 CFR 676.10, 676.20).
#![tactic(auto)]

mod candidates;
mod fund;
mod laws;
mod payments;
mod request;
mod rounds;

pub use laws::{one_list_of_candidates, round_is_within_fund};
pub use request::RoundRequest;
pub use rounds::{PlannedRound, plan_round};
