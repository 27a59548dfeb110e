//! Paths as texts: their normal form, a name below a base, the folder of a path, and where a header is looked for.
//!
//! No file is looked at, so `..` stays where it stands. The only error is want of memory.
#![tactic(auto)]

mod candidates;
mod folders;
mod joining;
mod normal_form;
mod places;
mod segments;

pub use candidates::candidate;
pub use folders::folder;
pub use joining::join;
pub use normal_form::normal;
pub use places::place;

#[cfg(test)]
mod tests;
