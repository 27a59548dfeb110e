//! A set of byte strings.
#![tactic(auto)]

mod set;

pub use set::StringSet;

#[cfg(test)]
mod tests;
