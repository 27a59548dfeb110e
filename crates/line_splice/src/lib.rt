//! A cursor over the bytes of a text that show after phases 1 and 2 of translation, with their places and lines.
#![tactic(auto)]

mod cursor;
mod splices;

pub use cursor::Cursor;

#[cfg(test)]
mod tests;
