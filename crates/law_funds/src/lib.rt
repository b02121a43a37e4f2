//! Award rounds: what a school's policy awards each candidate of a fund of Federal Supplemental Educational Opportunity Grants (HEA
//! 413C(c); 34 CFR 676.10, 676.20).
#![tactic(auto)]

mod candidate;
mod order;
mod policy;
mod rounds;
mod rules;

pub use candidate::Candidate;
pub use order::is_in_order;
pub use policy::{Policies, Policy, Rule, standard};
pub use rounds::{Awarded, round};
pub use rules::{level, quarter};
