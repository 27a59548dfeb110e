//! Hide sets: which macro names a token may not be replaced by again ([cpp.rescan]).
//!
//! A token carries a small number; the table knows the names of each number's set.
#![tactic(auto)]

mod set;
mod table;

pub use set::HideSet;
pub use table::HideSets;

#[cfg(test)]
mod tests;
