//! Files in memory, two of which must be read at the same time: a read of one waits until a read of the other has begun.
//!
//! A scan that reads under a lock, or on one thread, waits in vain, and the read fails. No clause says that they meet.
#![tactic(auto)]

mod meeting;
mod source;

pub use meeting::Meeting;
pub use source::{MeetingGiven, MeetingOpener, MeetingSource};

#[cfg(test)]
mod tests;
