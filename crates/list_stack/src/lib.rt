//! The lists of tokens that macro replacement is at, one inside the other ([cpp.rescan]).
//!
//! All of them lie in one vector, and each token knows where the next parenthesis closes and the next argument ends. So
//! a call's parentheses and arguments are cut with no move of a token, however deep calls stand in one another.
#![tactic(auto)]

mod cuts;
mod entry;
mod filling;
mod stack;

pub use stack::ListStack;

#[cfg(test)]
mod tests;
