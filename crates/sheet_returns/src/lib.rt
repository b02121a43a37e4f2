//! What schools still have to send back after withdrawals, and what came of the returns of a year (34 CFR 668.22(j)).
#![tactic(auto)]

mod laws;
mod lines;
mod open;
mod rows;
mod sendings;
mod withdrawals;
mod years;

pub use laws::due_in_order;
pub use open::due;
pub use years::returns;
