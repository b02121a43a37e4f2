//! Desks that file rows into one kept list at once, each from a thread of its own where one can be made.
#![tactic(auto)]

mod copies;
mod crew;
mod desk;
mod filing;
mod posting;
mod row;
mod shared;
mod stop;
mod waiting;

pub use copies::EntryCopies;
pub use crew::{close_desks, open_desks};
pub use desk::Desk;
pub use filing::file_rows;
pub use posting::Poster;
pub use shared::{SharedList, Since};
pub use stop::{DeskEnd, DeskStop};
pub use waiting::{Stage, WaitingRow};
