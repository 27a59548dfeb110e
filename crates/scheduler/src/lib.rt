//! The jobs of a database, scanned by several workers over one store of files, one step of one worker at a time.
//!
//! Which worker makes the next step is told by a schedule, so that each run can be made again. Whatever the schedule, a
//! path is read once, and not where the store has its row already, and all jobs have their ends over one map of files.
#![tactic(auto)]

mod ends;
mod known;
mod movers;
mod moving;
mod number;
mod reading;
mod run;
#[cfg(test)]
mod tests;
mod told;

pub use run::run_schedule;
