//! All words of the program, read once into a plan: whose they are, which file is the journal and how it is opened, and which call is
//! made. `desk_files` are the files that stand behind `desks`.
#![tactic(auto)]

mod files;
mod plan;

pub use files::desk_files;
pub use plan::{JournalPlan, Opening, Plan, Program, plan_of};
