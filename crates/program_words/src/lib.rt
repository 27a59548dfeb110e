//! The words that the program is called with: what they ask for, or that they are refused.
//!
//! `clap` reads them. `specs/Options.antt` has the options that it is told of.
#![tactic(auto)]

mod alone;
mod options;
mod reading;

pub use alone::is_alone;
pub use reading::{Input, Usage, Words, read};

#[cfg(test)]
mod tests;
