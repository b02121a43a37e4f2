//! A web desk over a kept list: each connection is served by turns of one lock, and several ports at once.
#![tactic(auto)]

mod all;
mod clerk;
mod crew;
mod forms;
mod laws;
mod serving;
mod stop;
mod worker;

pub use all::serve_ports;
pub use clerk::serve_desk;
pub use crew::{close_workers, open_workers};
pub use forms::{ApiOf, MachineApi};
pub use laws::{
    all_told, available, created_stand, faults_are_counted, memory_is_reserved, part_begins, told,
};
pub use stop::WebEnd;
pub use worker::Worker;
