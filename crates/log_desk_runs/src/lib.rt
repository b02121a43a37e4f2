//! Many desks that file at once into one kept list: their inputs are read, each files its rows while the others file theirs, and
//! one text tells what they did.
#![tactic(auto)]

mod desk_lines;
mod desks;
mod input;
mod laws;
mod names;

pub use desks::{MOST_DESKS, run_desks_on};
pub use input::DeskSource;
pub use laws::{
    added_are_named, answered_on_closed, desk_causes, faults_are_counted, first_is_named,
    fronts_rise, undecided_is_next,
};
pub use names::EntryMatch;
