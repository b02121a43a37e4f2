//! Clock-hour programs: what a payment period pays of a Scheduled Award, and the worksheet of a withdrawal by hours (HEA 481(a)(2),
//! 484B(d)(2); 34 CFR 690.63(e), 668.22(f)(1)(ii)); and rows about them, each answered by a line.
#![tactic(auto)]

mod answer;
mod field;
mod hours;
mod lines;
mod row;

pub use answer::ClockAnswer;
pub use hours::{clock_pay, clock_sheet};
pub use lines::clock_lines;
pub use row::ClockForm;
