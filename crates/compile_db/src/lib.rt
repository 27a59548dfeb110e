//! Reads a compilation database, a JSON array of the commands that a build runs
//! (<https://clang.llvm.org/docs/JSONCompilationDatabase.html>), into the entries that it lists.
#![tactic(auto)]

mod database;
mod entry;
mod members;

pub use database::{DbFault, read};
pub use entry::{Entry, EntryWords};

#[cfg(test)]
mod tests;
