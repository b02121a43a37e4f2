//! The seal of a list: a chain of SHA-256 over the bytes of its entries, and the line that tells of it; with the laws of what one
//! seal shows, each as the contract of a function that computes nothing.
#![tactic(auto)]

mod laws;
mod line;
mod seal;
#[cfg(test)]
mod tests;

pub use laws::{front_stands, one_line, one_list};
pub use line::put_sealed_line;
pub use seal::{Seal, first_seal};
