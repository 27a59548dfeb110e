//! The fixed words and punctuators of the preprocessor, each with a number, and the two searches in such tables.
#![tactic(auto)]

mod search;
mod tables;

pub use search::{Row, find, longest};
pub use tables::{attribute_value, directive_word, operator_word, punctuator};

#[cfg(test)]
mod tests;
