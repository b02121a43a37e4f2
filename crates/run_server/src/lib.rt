//! The web desk of the office: ports whose connections are served at once.
#![tactic(auto)]

mod web;
mod web_laws;
mod workers;

pub use web::{OfficeApi, run_web};
pub use web_laws::{created_stand, faults_are_counted, memory_is_reserved, web_causes};
