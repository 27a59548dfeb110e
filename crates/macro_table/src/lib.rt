//! The macros of a unit: a finite map from names to definitions, those that `push_macro` saved, and what the tokens
//! after `#define` define ([cpp.replace], [cpp.predefined]).
#![tactic(auto)]

mod copies;
mod define;
mod function;
mod head;
mod names;
mod parentheses;
mod replacement;
mod slot;
mod table;
mod token_tests;

pub use define::{BadDefine, read_define};
pub use scan_model::{BuiltIn, Def, FunctionDef};
pub use table::Macros;

#[cfg(test)]
mod tests;
