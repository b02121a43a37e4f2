//! The outside as it is: files, standard streams, sockets and a program's words. A journal's file is opened and locked here, what the
//! memory of the machine has of it is let go, and its folder is synced.
//!
//! `HostReader` is a source, `HostWriter` a sink, `HostDisk` and `HostDiskToRead` are disks, `HostConnection` is a connection and
//! `HostAcceptor` that from which connections come. Each counts its faults, which is proved, and none tells what it holds: of that nothing is promised.
#![tactic(auto)]

mod disk_host;
mod disk_to_read;
mod files;
mod host;
mod page_cache;
mod port_edge;
mod retried;
mod socket;
mod streams;

pub use disk_host::HostDisk;
pub use disk_to_read::HostDiskToRead;
pub use files::{is_born, keep_in_folder, open_input, open_journal};
pub use host::{HostReader, HostWriter};
pub use page_cache::{take, take_to_read};
pub use port_edge::HostAcceptor;
pub use socket::HostConnection;
pub use streams::{fill_streams, say, words_of};
