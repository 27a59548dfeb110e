//! The spellings of one lexical class each, read at a cursor ([lex.pptoken]): names, numbers, quoted literals, raw
//! strings, header names and single characters. No call takes memory: each moves the cursor and no more.
#![tactic(auto)]

mod character;
mod header;
mod name;
mod number;
mod quoted;
mod raw;
mod raw_text;
mod steps;

pub use character::pass_character;
pub use header::pass_header;
pub use name::{begins_name, pass_name};
pub use number::{begins_number, pass_number};
pub use quoted::{Opening, Quote, literal_at, pass_quoted};
pub use raw::{RawParts, RawSpelling, pass_raw};
pub use steps::{pass_bytes, pass_over};

#[cfg(test)]
mod tests;
