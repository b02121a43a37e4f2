//! Tests of what reads an office and files nothing: sheets over files in memory, audits of exported texts, and rows about clock-hour
//! programs. This library has tests alone.
#![tactic(auto)]

#[cfg(test)]
mod audit_runs;
#[cfg(test)]
mod audits;
#[cfg(test)]
mod clock_rows;
#[cfg(test)]
mod reviews;
#[cfg(test)]
mod sheets;
#[cfg(test)]
mod texts;
