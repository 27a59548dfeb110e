//! Which whole spellings make a preprocessing token ([lex.pptoken]), and two tokens joined to one ([cpp.concat]).
//!
//! Each test takes a time in proportion to its spelling, and only `paste` takes memory.
#![tactic(auto)]

mod characters;
mod joining;
mod kinds;
mod literal_parts;
mod names;
mod numbers;
mod punctuators;
mod quoted;
mod raw_strings;

pub use joining::paste;
pub use kinds::kind_of;
pub use names::is_ident;
pub use numbers::is_number;
pub use punctuators::is_punct;
pub use quoted::{is_char, is_str};

#[cfg(test)]
mod tests;
