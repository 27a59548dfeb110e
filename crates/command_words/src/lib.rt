//! The command that an entry of the compilation database asks for, as far as a scan needs it.
//!
//! `split` reads one command line into its words as a POSIX shell quotes them; `job` reads the words of an entry
//! by the table of compiler words: the dialect, the folders of the search, the definitions, the forced headers and the
//! object that is written.
#![tactic(auto)]

mod bad_command;
mod jobs;
mod object_name;
mod options;
mod reading;
mod splitting;

pub use bad_command::BadCommand;
pub use jobs::job;
pub use splitting::split;

#[cfg(test)]
mod tests;
