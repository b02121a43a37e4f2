//! Faults and stops over files in memory: many desks at once, upgrades, amendments, and an office in the middle of a turn. This library
//! has tests alone.
#![tactic(auto)]

#[cfg(test)]
mod amend_faults;
#[cfg(test)]
mod amend_runs;
#[cfg(test)]
mod desk_runs;
#[cfg(test)]
mod desks;
#[cfg(test)]
mod offices;
#[cfg(test)]
mod upgrade_faults;
#[cfg(test)]
mod upgrade_files;
#[cfg(test)]
mod upgrade_lines;
#[cfg(test)]
mod upgrade_runs;
