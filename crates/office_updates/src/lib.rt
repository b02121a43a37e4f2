//! The one row of each table that a filing changes, and to what, over whatever keeps what is on file.
//!
//! Walks from each term of a school, and from each first enrollment of a student in a term, to the one before it, and links from
//! an enrollment to its place, its school and its term.
#![tactic(auto)]

mod after_places;
mod after_schools;
mod after_years;
mod changed;
mod enrollments;
mod links;
mod uncounted;
mod walks;

pub use after_places::place_after;
pub use after_schools::{school_after, school_year_after};
pub use after_years::{student_after, year_after};
pub use changed::{place_changed, school_year_changed, student_changed, year_changed};
pub use enrollments::{paid_beside, term_over};
pub use links::{EnrollmentLink, link_of};
pub use uncounted::{place_of, school_of, school_year_of, term_of};
pub use walks::{school_calendar, school_term};
