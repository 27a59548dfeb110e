//! The state of one shard that workers share: a source, and the log of what happened to its paths. A path is claimed for
//! one worker, which reads it elsewhere, and what it read is published for all.
#![tactic(auto)]

mod desk;
mod entry;
mod happened;
mod rows;
mod telling;

pub use desk::{Desk, Found};
pub use entry::{Entry, Event};
pub use happened::{Claimed, Happened, Published};
pub use telling::bare_answer;

#[cfg(test)]
mod tests;
