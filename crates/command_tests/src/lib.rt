//! Tests of whole runs of one command each, by texts in and out over a file in memory. This library has tests alone.
#![tactic(auto)]

#[cfg(test)]
mod commands;
#[cfg(test)]
mod offices;
#[cfg(test)]
mod plain_file;
#[cfg(test)]
mod policies;
#[cfg(test)]
mod runs;
#[cfg(test)]
mod year;
