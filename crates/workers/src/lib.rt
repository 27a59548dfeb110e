//! The jobs of a database, scanned by several workers on threads of their own, over one shared cache.
//!
//! Whatever the threads do first, a path is read once, and all jobs have their ends over one map of files.
#![tactic(auto)]

mod crew;
mod gathering;
mod rooms;
mod scan;
mod working;

pub use scan::{Scanned, scan_all};

#[cfg(test)]
mod tests;
