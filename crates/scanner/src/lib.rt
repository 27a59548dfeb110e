//! The two top calls of the scanner: from the program's words and the outside to the printed document.
//!
//! Everything that the program does to its sources and sinks goes through `scan_deps`, which scans on threads, or
//! `scan_alone`, which scans on one. Their contracts are the scanner's theorem. The program itself only makes the real
//! sources and sinks.
#![tactic(auto)]

mod alone;
mod made;
mod outside;
mod printing;
mod refusal;
mod refusing;
mod status;
mod threaded;
mod verdict;

pub use alone::scan_alone;
pub use outside::{Ended, Outside};
pub use threaded::scan_deps;

#[cfg(test)]
mod tests;
