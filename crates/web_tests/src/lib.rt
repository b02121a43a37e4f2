//! Tests of the web desk: sessions on one connection, and whole runs over ports in memory. This library has tests alone.
#![tactic(auto)]

#[cfg(test)]
mod connections;
#[cfg(test)]
mod ports;
#[cfg(test)]
mod runs;
