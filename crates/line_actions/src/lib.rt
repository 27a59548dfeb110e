//! What one kept line does to a unit: directives ([cpp]), module lines and import lines ([cpp.module], [cpp.import]).
//!
//! A line changes the state of its file and of its unit, stops the unit, or asks for files: for a header that it
//! includes, or for those that the `__has_include`s of its condition name.
#![tactic(auto)]

mod conditions;
mod directives;
mod header_names;
mod includes;
mod keyword_lines;
mod line_action;
mod line_numbers;
mod replaced;
mod sites;

pub use conditions::{Test, fault_of, is_nonzero, next_test};
pub use includes::search_form;
pub use line_action::act;
pub use plain_lines::{Action, Condition, FileState, KeptLine, OpenGroup, UnitState, is_skipped};

#[cfg(test)]
mod tests;
