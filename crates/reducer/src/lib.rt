//! The lines of a text that are directives ([cpp.pre]): all that a scan keeps of a file.
#![tactic(auto)]

mod answer;
mod definitions;
mod directive_lines;
mod directive_word;
mod flat;
mod fronts;
mod header_wanted;
mod open_lines;
mod reduced;
mod reduction;
mod skip_table;
mod tables;

pub use answer::Answer;
pub use reduced::{Definition, LineHead, Reduced, TokView};
pub use reduction::reduce;

#[cfg(test)]
mod tests;
