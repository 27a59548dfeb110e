//! Macro replacement ([cpp.replace], [cpp.rescan]): the tokens of a line or of text, with every macro replaced.
#![tactic(auto)]

mod args;
mod built_ins;
mod calls;
mod defined;
mod machine;
mod objects;
mod run;
mod scope;
mod straight;
mod turns;

pub use run::expand;
pub use scan_model::{Expanded, Mode, Site};

#[cfg(test)]
mod tests;
