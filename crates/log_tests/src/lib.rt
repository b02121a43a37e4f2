//! Numbers that rise, plain and stamped: what a list of another kind brings to a kept list, a session, a round and desks. This
//! library has tests alone.
#![tactic(auto)]

#[cfg(test)]
mod counting_disk;
#[cfg(test)]
mod files;
#[cfg(test)]
mod forms;
#[cfg(test)]
mod own;
#[cfg(test)]
mod rising;
#[cfg(test)]
mod rounds;
#[cfg(test)]
mod sessions;
#[cfg(test)]
mod stamped;
#[cfg(test)]
mod stamped_numbers;
#[cfg(test)]
mod waits;
