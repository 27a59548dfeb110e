//! One worker of a scan by several: it draws the numbers of jobs, runs each job's unit over the cache that the workers
//! share, and leaves the jobs' ends in its share.
//!
//! Each end is what the job ends with over every file map that has what the worker has seen, or want of memory.
#![tactic(auto)]

mod asking;
mod drawing;
mod hand;
mod share;
mod units;

pub use drawing::work;
pub use hand::Hand;
pub use share::Share;

#[cfg(test)]
mod tests;
