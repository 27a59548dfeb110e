//! Reads the module and import lines of a unit into its record ([module.unit], [module.import]).
#![tactic(auto)]

mod dotted;
mod names;
mod record_builder;
mod required_names;
mod subject;
mod token_tests;

pub use record_builder::RecordBuilder;
pub use scan_model::{Keyword, ModuleFault};

#[cfg(test)]
mod tests;
