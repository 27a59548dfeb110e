//! The law that macro replacement keeps the text of identifiers well-formed UTF-8 ([cpp.replace]).
#![tactic(auto)]

mod names;

pub use names::names_stay;
