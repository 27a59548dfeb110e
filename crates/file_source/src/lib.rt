//! The outside of the scanner: sources of files, and sinks of text.
//!
//! The code above knows them by two traits alone, whose contracts say what a source was asked for, what a file's
//! read gave, what a sink holds and how often it has failed. Of the sources one stands over the system and two
//! over memory, one of which fails by a script and one of which never fails; of the sinks one stands over a writer and
//! one over memory.
#![tactic(auto)]

mod counted_reader;
mod disk_source;
mod given;
mod made_file;
mod memory_sink;
mod memory_source;
mod out_sink;
mod plain_source;
mod reading;
mod sink;
mod source;

pub use disk_source::{DiskOpener, DiskSource};
pub use given::Given;
pub use made_file::{Listed, MadeFile};
pub use memory_sink::MemorySink;
pub use memory_source::{MemoryOpener, MemorySource, Scripted, ScriptedOutcome};
pub use out_sink::OutSink;
pub use plain_source::{PlainGiven, PlainOpener, PlainSource};
pub use sink::{Failed, Sink};
pub use source::Source;

#[cfg(test)]
mod tests;
