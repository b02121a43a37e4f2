//! Tests of edges, disks and journals: bytes of worked files, and what faults and stops leave. This library has tests alone.
#![tactic(auto)]

#[cfg(test)]
mod disks;
#[cfg(test)]
mod edges;
#[cfg(test)]
mod journals;
#[cfg(test)]
mod pieces;
#[cfg(test)]
mod tools;
#[cfg(test)]
mod versions;
