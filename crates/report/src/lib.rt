//! The lines that report the commands which did not end with a record, and the summary of a run.
//!
//! `specs/FaultLines.antt` says what stands in a line, `specs/Counts.antt` what a summary counts.
#![tactic(auto)]

mod counts;
mod line;
mod names;

pub use counts::summary;
pub use line::fault_line;

#[cfg(test)]
mod tests;
