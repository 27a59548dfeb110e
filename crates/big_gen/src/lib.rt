//! A tree of made-up files and its compilation database, of any size, by which a scan can be tried and measured.
//!
//! `specs/MadeTexts.antt` says each byte of it.
#![tactic(auto)]

mod database;
mod files;
mod tree;

pub use files::made_files;
pub use tree::{MadeTree, make};

#[cfg(test)]
mod tests;
