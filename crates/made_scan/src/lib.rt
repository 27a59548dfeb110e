//! A scan of a made tree, from its files in memory to the ends of its units, without a database.
//!
//! The sources are plain, so no read ever fails, and what the scan gives follows from the number of units alone, unless
//! memory was wanting.
#![tactic(auto)]

mod alone;
mod jobs;
mod scanned;
mod store;
mod threaded;

pub use alone::scan_made_alone;
pub use scanned::MadeScan;
pub use threaded::scan_made;

#[cfg(test)]
mod tests;
